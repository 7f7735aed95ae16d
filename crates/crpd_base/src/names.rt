ghost use Rattle.std.specs.Prelude.{◌≡◌};
ghost use Rattle.std.specs.List.{list_all};
ghost use Rattle.crpd_base.specs.Names as spec;

fn is_name_byte(b: &u8) -> bool
    ensures { result ≡ spec.is_name_byte b.now }
{
    matches!(*b, b'0'..=b'9' | b'A'..=b'Z' | b'a'..=b'z' | b'_' | b'.' | b'-')
}

fn are_name_bytes(bytes: &[u8]) -> bool
    ensures { result ≡ list_all spec.is_name_byte bytes.now }
{
    bytes.iter().all(is_name_byte)
}

/// Whether a text may name a task: 1 to 32 bytes, each an ASCII letter or digit, `_`, `.` or `-`.
/// In constant time; it takes no memory.
pub fn is_name(text: &str) -> bool
    ensures { result ≡ spec.is_name text.now }
{
    1 <= text.len() && text.len() <= 32 && are_name_bytes(text.as_bytes())
}

fn is_file_byte(b: &u8) -> bool
    ensures { result ≡ spec.is_file_byte b.now }
{
    0x21 <= *b && (*b < 0x7F || 0x7F < *b)
}

fn are_file_bytes(bytes: &[u8]) -> bool
    ensures { result ≡ list_all spec.is_file_byte bytes.now }
{
    bytes.iter().all(is_file_byte)
}

/// Whether a text may name a file: 1 to 255 bytes, none of them 0x7F or below 0x21. In constant
/// time; it takes no memory.
pub fn is_file(text: &str) -> bool
    ensures { result ≡ spec.is_file text.now }
{
    1 <= text.len() && text.len() <= 255 && are_file_bytes(text.as_bytes())
}
