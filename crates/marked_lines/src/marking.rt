// A line is marked before it is read, so that a number keeps its spelling: each string begins with
// `s`, and each number becomes a string that begins with `n`.
ghost use Rattle.std.specs.Prelude.{◌≡◌, ◌+◌, ◌≤◌, ◌<◌, ℕ, List, None, Some, length, take, drop, IsTrue, ◌↔◌, IfOk, IsErrOf};
ghost use Rattle.std.specs.List.{prefix_len};
ghost use Rattle.json.specs.Print.{IsNumber};
ghost use Rattle.marked_lines.specs.Cut.{begins_number, is_number_byte, IsText, Marks};
ghost use Rattle.marked_lines.specs.Marked.{marked_text, MarkingIsMarkedText};

use ocpi_json::ReadFault;
use std::alloc::Global;
use std::str;

fn begins_number(byte: u8) -> bool
    ensures { result ≡ begins_number byte }
{
    byte == b'-' || byte.is_ascii_digit()
}

fn is_number_byte(byte: u8) -> bool
    ensures { result ≡ is_number_byte byte }
{
    byte.is_ascii_digit()
        || byte == b'-'
        || byte == b'+'
        || byte == b'.'
        || byte == b'e'
        || byte == b'E'
}

// How many bytes a string takes after its opening quote.
fn text_len(bytes: &[u8]) -> usize
    ensures in_range { result ≤ length bytes.now }
    ensures text { IsText (take result bytes.now) (drop result bytes.now) }
{
    let mut kept = false;
    for (index, byte) in bytes.iter().enumerate() {
        if kept {
            kept = false;
        } else if *byte == b'"' {
            return index + 1;
        } else {
            kept = *byte == b'\\';
        }
    }
    bytes.len()
}

// How many bytes at the front go on with a number.
fn number_len(bytes: &[u8]) -> usize
    ensures in_range { result ≤ length bytes.now }
    ensures longest { result ≡ prefix_len is_number_byte bytes.now }
{
    for (index, byte) in bytes.iter().enumerate() {
        if !is_number_byte(*byte) {
            return index;
        }
    }
    bytes.len()
}

fn is_number(token: &[u8]) -> bool
    requires { prefix_len is_number_byte token.now ≡ length token.now }
    ensures { IsTrue result ↔ IsNumber token.now }
{
    match str::from_utf8(token) {
        Ok(text) => json::is_number(text),
        Err(_) => false,
    }
}

/// A law: the marked text is a function of the line, and `marked_text` is that function.
pub fn marking_is_marked_text()
    ensures { MarkingIsMarkedText }
{}

/// The line with its strings and numbers marked.
///
/// A number token begins outside strings at a digit or `-`, and goes on over digits, `+`, `-`,
/// `.`, `e` and `E`. A string that does not end reaches the end of the line.
///
/// # Errors
///
/// `Syntax` where a number token is no number by RFC 8259, section 6; `NoMemory` where memory ran
/// out.
pub fn mark(alloc: Global, bytes: &[u8]) -> Result<Vec<u8>, ReadFault>
    ensures marked { IfOk result (λ out. Marks bytes.now out.items) }
    ensures only { IfOk result (λ out. (other : List ℕ) → Marks bytes.now other → other ≡ out.items) }
    ensures syntax { IsErrOf result ReadFault.Syntax → (out : List ℕ) → Marks bytes.now out → ⊥ }

    // The same by the function.
    ensures computed { IfOk result (λ out. marked_text bytes.now ≡ Some out.items) }
    ensures none { IsErrOf result ReadFault.Syntax → marked_text bytes.now ≡ None }
{
    let mut out = Vec::new(alloc);
    let mut rest = bytes;
    while let Some((first, after)) = rest.split_first() {
        if *first == b'"' {
            let (text, next) = after.split_at(text_len(after));
            out.extend_from_slice(b"\"s")?;
            out.extend_from_slice(text)?;
            rest = next;
        } else if begins_number(*first) {
            let (token, next) = rest.split_at(1 + number_len(after));
            if !is_number(token) {
                return Err(ReadFault::Syntax);
            }
            out.extend_from_slice(b"\"n")?;
            out.extend_from_slice(token)?;
            out.push(b'"')?;
            rest = next;
        } else {
            out.push(*first)?;
            rest = after;
        }
    }
    Ok(out)
}
