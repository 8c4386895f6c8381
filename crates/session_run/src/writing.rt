ghost use Rattle.std.specs.Prelude.{◌∷◌, ◌++◌, [], OnOk, OnErr};
ghost use Rattle.std.specs.Io.KnownBytes.{Appends};
ghost use Rattle.session_run.specs.Runs.{reply_line, TakesBeginning};

use arrayvec::ArrayString;
use session::Reply;
use std::io::Write;

/// A call of `write` or `flush` failed, or a write took no byte.
#[derive(Clone, Copy, Debug, PartialEq, Eq)]
pub struct WriteFault;

// Writes all bytes.
#[tactic(auto, using(crate::proofs::Appending::appends_more))]
fn write_whole<W: Write>(writer: &mut W, bytes: &[u8]) -> Result<(), WriteFault>
    ensures ok { OnOk result (Appends (W.contents writer.old) (W.contents writer.new) bytes.now) }
    ensures err { OnErr result (TakesBeginning bytes.now (W.contents writer.old) (W.contents writer.new)) }
{
    let mut rest = bytes;
    while !rest.is_empty() {
        match writer.write(rest) {
            Ok(0) => return Err(WriteFault),
            Ok(count) => rest = &rest[count..],
            Err(_) => return Err(WriteFault),
        }
    }
    Ok(())
}

// Writes a head, a body and a newline, one after another.
#[tactic(auto, using(crate::proofs::Appending::appends_more))]
fn write_pieces<W: Write>(writer: &mut W, head: &[u8], body: &[u8]) -> Result<(), WriteFault>
    ensures ok { OnOk result (Appends (W.contents writer.old) (W.contents writer.new) (head.now ++ body.now ++ 10 ∷ [])) }
    ensures err { OnErr result (TakesBeginning (head.now ++ body.now ++ 10 ∷ []) (W.contents writer.old) (W.contents writer.new)) }
{
    write_whole(writer, head)?;
    write_whole(writer, body)?;
    write_whole(writer, b"\n")?;
    Ok(())
}

/// Writes a reply and a newline, and drops the reply: with one call of `write` where the head has room for what stands
/// behind it and the writer takes it whole. What the head held is dropped.
pub fn write_reply<W: Write>(
    writer: &mut W,
    head: &mut ArrayString<512>,
    reply: Reply,
) -> Result<(), WriteFault>
    ensures ok { OnOk result (Appends (W.contents writer.old) (W.contents writer.new) (reply_line reply)) }
    ensures err { OnErr result (TakesBeginning (reply_line reply) (W.contents writer.old) (W.contents writer.new)) }
{
    head.clear();
    reply.write_into(head);
    match &reply {
        Reply::Map(bytes) => {
            return write_pieces(writer, head.as_str().as_bytes(), bytes.as_slice());
        }
        Reply::Documents(text) | Reply::Text(text) => {
            if head.remaining_capacity() <= text.as_str().len() {
                return write_pieces(writer, head.as_str().as_bytes(), text.as_str().as_bytes());
            }
            head.push_str(text.as_str());
        }
        _ => {}
    }
    head.push('\n');
    write_whole(writer, head.as_str().as_bytes())
}
