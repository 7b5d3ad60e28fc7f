//! The keys of a description.

ghost use Rattle.std.specs.Prelude.{◌≡◌};
ghost use Rattle.desc_text.specs.Items.{key_of};

/// The keys of a description: the first word of a line.
#[derive(Clone, Copy, Debug, PartialEq, Eq)]
pub enum Key {
    Slave,
    Uuid,
    Address,
    Model,
    Busy,
    Heartbeat,
    Resolution,
    Input,
    Output,
}

/// The key that a word is.
pub fn key_of(word: &[u8]) -> Option<Key>
    ensures { result ≡ key_of word.now }
{
    if word == b"slave".as_slice() {
        return Some(Key::Slave);
    }
    if word == b"uuid".as_slice() {
        return Some(Key::Uuid);
    }
    if word == b"address".as_slice() {
        return Some(Key::Address);
    }
    if word == b"model".as_slice() {
        return Some(Key::Model);
    }
    if word == b"busy".as_slice() {
        return Some(Key::Busy);
    }
    if word == b"heartbeat".as_slice() {
        return Some(Key::Heartbeat);
    }
    if word == b"resolution".as_slice() {
        return Some(Key::Resolution);
    }
    if word == b"input".as_slice() {
        return Some(Key::Input);
    }
    if word == b"output".as_slice() {
        return Some(Key::Output);
    }
    None
}
