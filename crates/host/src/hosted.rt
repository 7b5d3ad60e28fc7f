//! Which ends of a scenario are hosted, and how far they are.

ghost use Rattle.std.specs.Prelude.{◌≡◌, ◌≤◌, ◌-◌};
ghost use Rattle.host.specs.Hosting.{is_hosted, count_from};

/// The ends that are hosted: bit s - 1 of `slaves` stands for slave s. A bit of a slave that the
/// scenario does not have stands for nothing.
#[derive(Clone, Copy, Debug, PartialEq, Eq)]
pub struct Hosted {
    pub master: bool,
    pub slaves: u16,
}

/// The master and each slave that a scenario can have.
pub const ALL_ENDS: Hosted = Hosted {
    master: true,
    slaves: u16::MAX,
};

/// Whether there is more to do.
#[derive(Clone, Copy, Debug, PartialEq, Eq)]
pub enum Progress {
    Going,
    /// The hosted master has its report; or no master is hosted, and each hosted slave is over.
    Done,
}

impl Hosted {
    /// Whether the slave of this number, 1 to 16, is hosted.
    pub(crate) fn has(self, slave: u8) -> bool
        requires { (1 ≤ slave) × (slave ≤ 16) }
        ensures { result ≡ is_hosted self slave }
    {
        (self.slaves >> (slave - 1)) % 2 == 1
    }

    /// How many of the slaves before the one of this number, 1 to 16, are hosted.
    pub(crate) fn before(self, slave: u8) -> usize
        requires { (1 ≤ slave) × (slave ≤ 16) }
        ensures { result ≡ count_from self 1 (slave - 1) }
    {
        let mut count = 0;
        for other in 1..slave {
            count += usize::from(self.has(other));
        }
        count
    }
}
