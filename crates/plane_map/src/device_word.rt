// The words for the devices in texts.
ghost use Rattle.std.specs.Prelude.{◌≡◌};
ghost use Rattle.plane_map.specs.DeviceWords.{device_word, device_named, database_device_named};

use crate::device::DeviceName;

impl DeviceName {
    /// The word for the device: `384`, `1k` or `8k`.
    pub fn word(self) -> &'static [u8]
        ensures { result.now ≡ device_word self }
    {
        match self {
            DeviceName::Lp384 => b"384",
            DeviceName::Hx1k => b"1k",
            DeviceName::Hx8k => b"8k",
        }
    }

    /// The device that a word names, or `None`.
    pub fn named(word: &[u8]) -> Option<DeviceName>
        ensures { result ≡ device_named word.now }
    {
        if word == b"384".as_slice() {
            Some(DeviceName::Lp384)
        } else if word == b"1k".as_slice() {
            Some(DeviceName::Hx1k)
        } else if word == b"8k".as_slice() {
            Some(DeviceName::Hx8k)
        } else {
            None
        }
    }

    /// The device that a word names in a chip database, and wherever a chip database is needed: `None` for the LP384.
    pub fn named_with_database(word: &[u8]) -> Option<DeviceName>
        ensures { result ≡ database_device_named word.now }
    {
        match DeviceName::named(word) {
            Some(device) if device.has_database() => Some(device),
            _ => None,
        }
    }
}
