//! How many bytes a sector has.
ghost use Rattle.std.specs.Prelude.{◌≡◌};
ghost use Rattle.disk_sectors.specs.Size.{bytes_in};

/// How many bytes a sector has: as many as the device writes, or loses, at once.
#[derive(Clone, Copy, Debug, PartialEq, Eq)]
pub enum SectorSize {
    /// 512 bytes.
    Bytes512,
    /// 4,096 bytes.
    Bytes4096,
}

impl SectorSize {
    /// So many bytes.
    pub fn bytes(self) -> usize
        ensures { result ≡ bytes_in self }
    {
        match self {
            SectorSize::Bytes512 => 512,
            SectorSize::Bytes4096 => 4096,
        }
    }
}
