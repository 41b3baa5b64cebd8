//! How threads run on an image file, and how it is made for them.
ghost use Rattle.std.specs.Prelude.{◌≡◌};

/// How many threads run on an image file, and how long its logs are where it is made for them.
#[derive(Clone, Copy, Debug, PartialEq, Eq)]
pub struct FilePlan {
    /// How many threads: 1 to 32.
    pub threads: u8,
    /// How many records each lane's log has room for: 1,000 to 1,048,576. An image that is there keeps what it has.
    pub lane_records: u32,
}

impl FilePlan {
    /// So many threads, and logs of 16,384 records.
    pub fn of(threads: u8) -> FilePlan
        ensures { result ≡ record { threads = threads; lane_records = 16384 } }
    {
        FilePlan {
            threads,
            lane_records: 16_384,
        }
    }
}
