//! The header of a batch: ` LENGTH HEAD`, and a newline.

ghost use Rattle.std.specs.Prelude.{◌≡◌, ◌≤◌, ◌++◌, ◌∷◌, ◌↔◌, [], length, drop, IsTrue};
ghost use Rattle.kept_batches.specs.File.{digits, header};

const HEADER_BYTES: usize = 75;

/// Writes a number in as many decimal digits as there is room for.
fn write_digits(room: &mut [u8], number: usize)
    ensures { room.new ≡ digits (length room.old) number }
{
    let Some((last, front)) = room.split_last_mut() else {
        return;
    };
    *last = 48 + (number % 10) as u8;
    write_digits(front, number / 10);
}

/// Writes ` LENGTH `.
fn write_size(room: &mut [u8], size: usize)
    requires { length room.old ≡ 10 }
    ensures { room.new ≡ 32 ∷ (digits 8 size ++ 32 ∷ []) }
{
    let Some((first, rest)) = room.split_first_mut() else {
        return;
    };
    *first = b' ';
    let Some((last, number)) = rest.split_last_mut() else {
        return;
    };
    *last = b' ';
    write_digits(number, size);
}

/// Writes the header of a batch with `size` bytes of lines, after which this is the head.
fn write_header(room: &mut [u8], size: usize, head: &[u8; 32])
    requires { length room.old ≡ 75 }
    ensures { room.new ≡ header size head.now }
{
    let (front, rest) = room.split_at_mut(10);
    write_size(front, size);
    let (hex, end) = rest.split_at_mut(64);
    let _fits = hex::encode_to_slice(head, hex);
    end[0] = b'\n';
}

/// Writes the header into the room before the lines of a batch.
pub(crate) fn put_header(text: &mut [u8], size: usize, head: &[u8; 32])
    requires { 75 ≤ length text.old }
    ensures { text.new ≡ header size head.now ++ drop 75 text.old }
{
    let (room, _) = text.split_at_mut(HEADER_BYTES);
    write_header(room, size, head);
}

/// Whether a text is this header.
pub(crate) fn is_header(text: &[u8], size: usize, head: &[u8; 32]) -> bool
    ensures { IsTrue result ↔ (text.now ≡ header size head.now) }
{
    let mut room = [0; HEADER_BYTES];
    write_header(&mut room, size, head);
    is_same(text, &room)
}

fn is_same(text: &[u8], other: &[u8]) -> bool
    ensures { IsTrue result ↔ (text.now ≡ other.now) }
{
    text == other
}
