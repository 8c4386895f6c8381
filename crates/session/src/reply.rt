ghost use Rattle.std.specs.Prelude.{◌≡◌, ◌++◌, ◌∷◌, ◌+◌, ◌/◌, ◌%◌, ◌≤◌, ◌<◌, [], Option, length, decimal};
ghost use Rattle.arrayvec.specs.ArrayString.{array_string_len};
ghost use Rattle.session.specs.declared.limits.TheConstants.{MAX_FILE_NAME};
ghost use Rattle.session.specs.Replies.{body_of, reply_text, refusal_of, flag_letter, flags_text, local_text, word_and};

use crate::text::{FileName, MapBytes};
use arrayvec::ArrayString;
use itoa::Buffer;
use map_model::MapText;
use refusals::Refusal;
use tile_id::Gid;

/// The tile of a tileset that a value names: the tileset's first global id, and the tile's local id in it.
#[derive(Clone, Copy, Debug, PartialEq, Eq)]
pub struct LocalTile {
    pub first_id: u32,
    pub local_id: u32,
}

/// What is answered to a line.
#[derive(Drop)]
pub enum Reply {
    /// The state of the active document after an accepted line.
    State {
        index: u64,
        count: u64,
        is_clean: bool,
        depth: u64,
    },
    /// No document is active after an accepted line.
    NoDocument,
    /// The names of the open documents, with a space between each two and a `*` before the active one's.
    Documents(MapText),
    /// The active document's map has been written into that file, in so many bytes.
    Saved {
        file: FileName,
        size: u64,
    },
    /// A text that was asked for.
    Text(MapText),
    /// The text of a map.
    Map(MapBytes),
    /// The cell is empty.
    EmptyTile,
    /// The cell's value, and the tile that it names, where a tileset has it.
    Tile {
        value: Gid,
        local: Option<LocalTile>,
    },
    Refused(Refusal),
}

fn push_digit(head: &mut ArrayString<512>, digit: u32)
    requires room { array_string_len head.old ≤ 200 }
    requires digit { digit < 10 }
    ensures value { head.new.bytes ≡ head.old.bytes ++ (48 + digit) ∷ [] }
    ensures size { array_string_len head.new ≡ array_string_len head.old + 1 }
{
    head.push((b'0' + digit as u8) as char);
}

// Writes the three last digits of a number.
fn push_three_digits(head: &mut ArrayString<512>, number: u64)
    requires { array_string_len head.old ≤ 180 }
    ensures value { head.new.bytes ≡ head.old.bytes ++ (48 + number / 100 % 10) ∷ (48 + number / 10 % 10) ∷ (48 + number % 10) ∷ [] }
    ensures size { array_string_len head.new ≡ array_string_len head.old + 3 }
{
    // Less work than in 64 bits.
    let last_three = (number % 1000) as u32;
    let last_two = last_three % 100;
    push_digit(head, last_three / 100);
    push_digit(head, last_two / 10);
    push_digit(head, last_two % 10);
}

// Writes a number below 1,000.
fn push_small_number(head: &mut ArrayString<512>, number: u64)
    requires room { array_string_len head.old ≤ 150 }
    requires small { number < 1000 }
    ensures value { head.new.bytes ≡ head.old.bytes ++ decimal number }
    ensures size { array_string_len head.new ≤ array_string_len head.old + 3 }
{
    if number >= 100 {
        push_three_digits(head, number);
        return;
    }
    let small = number as u32;
    if small < 10 {
        push_digit(head, small);
        return;
    }
    push_digit(head, small / 10);
    push_digit(head, small % 10);
}

// Three numbers stand in most replies: a call for each costs more than its text, and so does a copy of its digits.
#[inline(always)]
fn push_number(head: &mut ArrayString<512>, number: u64)
    requires { array_string_len head.old ≤ 150 }
    ensures value { head.new.bytes ≡ head.old.bytes ++ decimal number }
    ensures size { array_string_len head.new ≤ array_string_len head.old + 20 }
{
    if number < 1000 {
        push_small_number(head, number);
        return;
    }
    if number < 1_000_000 {
        push_small_number(head, number / 1000);
        push_three_digits(head, number);
        return;
    }
    let mut buffer = Buffer::new();
    head.push_str(buffer.format(number));
}

fn push_state(head: &mut ArrayString<512>, index: u64, count: u64, is_clean: bool, depth: u64)
    requires { head.old.bytes ≡ [] }
    ensures value { head.new.bytes ≡ reply_text (Reply.State index count is_clean depth) }
    ensures size { array_string_len head.new ≤ 100 }
{
    head.push_str("ok ");
    push_number(head, index);
    head.push_str("/");
    push_number(head, count);
    head.push_str(if is_clean { " clean " } else { " dirty " });
    push_number(head, depth);
}

fn letter(value: Gid, flag: u32, name: &'static str) -> &'static str
    requires { length name.now ≡ 1 }
    ensures value { result.now ≡ flag_letter value flag name.now }
    ensures size { length result.now ≡ 1 }
{
    if value.0 & flag == 0 { "-" } else { name }
}

fn push_flags(head: &mut ArrayString<512>, value: Gid)
    requires { array_string_len head.old ≤ 100 }
    ensures value { head.new.bytes ≡ head.old.bytes ++ flags_text value }
    ensures size { array_string_len head.new ≡ array_string_len head.old + 4 }
{
    head.push_str(letter(value, 0x8000_0000, "h"));
    head.push_str(letter(value, 0x4000_0000, "v"));
    head.push_str(letter(value, 0x2000_0000, "d"));
    head.push_str(letter(value, 0x1000_0000, "r"));
}

fn push_local(head: &mut ArrayString<512>, local: Option<LocalTile>)
    requires { array_string_len head.old ≤ 70 }
    ensures value { head.new.bytes ≡ head.old.bytes ++ local_text local }
    ensures size { array_string_len head.new ≤ array_string_len head.old + 50 }
{
    match local {
        Some(tile) => {
            push_number(head, u64::from(tile.first_id));
            head.push_str(" ");
            push_number(head, u64::from(tile.local_id));
        }
        None => head.push_str("none"),
    }
}

fn push_tile(head: &mut ArrayString<512>, value: Gid, local: Option<LocalTile>)
    requires { head.old.bytes ≡ [] }
    ensures value { head.new.bytes ≡ reply_text (Reply.Tile value local) }
    ensures size { array_string_len head.new ≤ 100 }
{
    head.push_str("tile ");
    push_number(head, u64::from(value.0));
    head.push_str(" ");
    push_flags(head, value);
    head.push_str(" ");
    push_local(head, local);
}

// Writes a word, and a space where a text follows, which does not belong to the head.
fn push_word(head: &mut ArrayString<512>, word: &'static str, text: &str)
    requires empty { head.old.bytes ≡ [] }
    requires short { length word.now ≤ 10 }
    ensures value { head.new.bytes ++ text.now ≡ word_and word.now text.now }
    ensures size { array_string_len head.new ≤ 11 }
{
    head.push_str(word);
    if !text.is_empty() {
        head.push(' ');
    }
}

/// Writes how a file was saved.
fn push_saved(head: &mut ArrayString<512>, file: &str, size: u64)
    requires empty { head.old.bytes ≡ [] }
    requires short { length file.now ≤ MAX_FILE_NAME }
    ensures value { head.new.bytes ≡ reply_text (Reply.Saved file.now size) }
    ensures size { array_string_len head.new ≤ 200 }
{
    head.push_str("saved ");
    head.push_str(file);
    head.push_str(" ");
    push_number(head, size);
}

impl Reply {
    /// Writes the reply's head, a text without a newline: the whole reply, but for what follows `docs`, `text` or `map`.
    pub fn write_into(&self, head: &mut ArrayString<512>)
        requires { head.old.bytes ≡ [] }
        ensures text { head.new.bytes ++ body_of self.now ≡ reply_text self.now }
        ensures short { length head.new.bytes < 512 }
    {
        match self {
            Reply::State {
                index,
                count,
                is_clean,
                depth,
            } => push_state(head, *index, *count, *is_clean, *depth),
            Reply::NoDocument => head.push_str("ok none clean"),
            Reply::Documents(names) => push_word(head, "docs", names.as_str()),
            Reply::Saved { file, size } => push_saved(head, file.as_str(), *size),
            Reply::Text(text) => push_word(head, "text", text.as_str()),
            Reply::Map(_) => head.push_str("map "),
            Reply::EmptyTile => head.push_str("tile 0"),
            Reply::Tile { value, local } => push_tile(head, *value, *local),
            Reply::Refused(refusal) => {
                head.push_str("no ");
                head.push_str(refusal.words());
            }
        }
    }

    /// The refusal that it is, where it is one.
    pub fn refusal(&self) -> Option<Refusal>
        ensures { result ≡ refusal_of self.now }
    {
        match self {
            Reply::Refused(refusal) => Some(*refusal),
            _ => None,
        }
    }

    /// What follows the head: the names of documents, a text that was asked for or the text of a map, and nothing for the
    /// other replies.
    pub fn body(&self) -> &[u8]
        ensures { result.now ≡ body_of self.now }
    {
        match self {
            Reply::Documents(text) | Reply::Text(text) => text.as_str().as_bytes(),
            Reply::Map(bytes) => bytes.as_slice(),
            _ => &[],
        }
    }
}
