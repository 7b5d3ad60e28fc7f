//! Slaves by their names.

ghost use Rattle.std.specs.Prelude.{◌≡◌, ◌≢◌, ◌≤◌, length, All, MatchOption};
ghost use Rattle.commands.specs.SlaveNames.{IsNamed};

use slave_desc::SlaveDesc;

/// The number of the slave with this name; none where there is none.
pub fn slave_named(slaves: &[SlaveDesc], name: &str) -> Option<u8>
    requires { length slaves.now ≤ 16 }
    ensures { MatchOption result (All (λ d. d.name ≢ name.now) slaves.now) (λ s. IsNamed slaves.now s name.now) }
{
    for place in 0..slaves.len() {
        if slaves[place].name.as_str() == name {
            return Some(place as u8 + 1);
        }
    }
    None
}
