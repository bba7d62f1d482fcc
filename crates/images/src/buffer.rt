// Numbers in a byte buffer, big-endian.
ghost use Rattle.std.specs.Prelude.{◌≡◌, ◌+◌, ◌<◌, ◌≤◌, length};
ghost use Rattle.images.specs.Bytes.{number_at, bytes, part, patched};

// The N bytes that stand at `at`.
fn part_at<const N: usize>(bytes: &[u8], at: usize) -> [u8; N]
    requires { at + N ≤ length bytes.now }
    ensures { result ≡ part at N bytes.now }
{
    let mut held = [0; N];
    held.copy_from_slice(&bytes[at..at + N]);
    held
}

// The offset or the length that stands at `at`.
pub(super) fn number32(bytes: &[u8], at: usize) -> usize
    requires { at + 4 ≤ length bytes.now }
    ensures value { result ≡ number_at at 4 bytes.now }
    ensures small { result < 4294967296 }
{
    u32::from_be_bytes(part_at(bytes, at)) as usize
}

// The code that stands at `at`.
pub(super) fn number64(bytes: &[u8], at: usize) -> u64
    requires { at + 8 ≤ length bytes.now }
    ensures { result ≡ number_at at 8 bytes.now }
{
    u64::from_be_bytes(part_at(bytes, at))
}

// Puts a code at `at`.
pub(super) fn patch(buffer: &mut [u8], at: usize, code: u64)
    requires { at + 8 ≤ length buffer.old }
    ensures { buffer.new ≡ patched at (bytes 8 code) buffer.old }
{
    buffer[at..at + 8].copy_from_slice(&code.to_be_bytes());
}
