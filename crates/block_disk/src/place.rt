//! Bytes at a place of an image, for whoever writes a disk. Places and lengths count bytes, from 0.
ghost use Rattle.std.specs.Prelude.{◌≡◌, ◌↔◌, IsTrue, ◌+◌, ◌≤◌, length};
ghost use Rattle.block_disk.specs.Bytes.{part, spliced};

/// Whether so many bytes from `at` on lie within a disk of this size.
pub fn lies_within(at: u64, len: usize, size: usize) -> bool
    ensures { IsTrue result ↔ (at + len ≤ size) }
{
    len <= size && at <= (size - len) as u64
}

/// Puts these bytes at `at`.
pub fn overwrite(image: &mut [u8], at: u64, bytes: &[u8])
    requires { at + length bytes.now ≤ length image.old }
    ensures { image.new ≡ spliced image.old at bytes.now }
{
    let start = at as usize;
    image[start..start + bytes.len()].copy_from_slice(bytes);
}

/// Puts these bytes at `at` of what the vector has.
pub fn put(bytes: &mut Vec<u8>, at: u64, content: &[u8])
    requires { at + length content.now ≤ length bytes.old.items }
    ensures { bytes.new.items ≡ spliced bytes.old.items at content.now }
{
    overwrite(bytes, at, content);
}

/// Copies the bytes from `at` on into `out`, whole.
pub fn copy_out(image: &[u8], at: u64, out: &mut [u8])
    requires { at + length out.old ≤ length image.now }
    ensures { out.new ≡ part at (length out.old) image.now }
{
    let start = at as usize;
    out.copy_from_slice(&image[start..start + out.len()]);
}
