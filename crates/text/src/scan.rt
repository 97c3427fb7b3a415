// Going over the bytes of a text: where a field ends, what is behind it, and where reading goes on behind an impossible byte.
ghost use Rattle.std.specs.Prelude.{◌≡◌, ◌+◌, ◌<◌, ◌≤◌, length, slice_index, Decides};
ghost use Rattle.text.specs.Grammar.{Visible, Plain, Quotable};
ghost use Rattle.text.specs.Resuming.{resumed};
ghost use Rattle.text.specs.Scanning.{PlainRun, QuotedEnd, FieldAt, HasCrlf, Follows};

use crate::record::Field;

// What stands behind a field.
pub(crate) enum Behind {
    // a comma
    Comma,
    // the record's end, and the place where the text goes on
    End(usize),
    // a first impossible byte, or the end of the text where more is wanted
    Impossible(usize),
}

fn is_visible(byte: u8) -> bool
    ensures { Decides result (Visible byte) }
{
    matches!(byte, 0x20..=0x7E)
}

// Whether a plain field can have the byte.
fn is_plain(byte: u8) -> bool
    ensures { Decides result (Plain byte) }
{
    is_visible(byte) && byte != b'"' && byte != b','
}

// Whether a quoted field can mean the byte.
fn is_quotable(byte: u8) -> bool
    ensures { Decides result (Quotable byte) }
{
    is_visible(byte) || matches!(byte, b'\r' | b'\n')
}

// Where the run of plain bytes from the place on ends.
#[tactic(auto, using(crate::proofs::Spanning::plain_none, crate::proofs::Spanning::plain_byte))]
fn plain_end(text: &[u8], at: usize) -> usize
    requires { at ≤ length text.now }
    ensures { PlainRun text.now at result }
{
    let mut i = at;
    while i < text.len() && is_plain(text[i]) {
        i += 1;
    }
    i
}

// Where the quoted field ends whose first quote is at the place, or the first byte that it cannot have, or the end of the text.
#[tactic(auto, using(crate::proofs::Spanning::quoted_byte, crate::proofs::Spanning::quoted_quote, crate::proofs::Spanning::quote_opens))]
fn quoted_end(text: &[u8], at: usize) -> Result<usize, usize>
    requires { (at < length text.now) × (slice_index text.now at ≡ 34) }
    ensures { QuotedEnd text.now at result }
{
    let mut i = at + 1;
    while i < text.len() {
        if text[i] == b'"' {
            if i + 1 == text.len() || text[i + 1] != b'"' {
                return Ok(i + 1);
            }
            i += 2;
        } else if is_quotable(text[i]) {
            i += 1;
        } else {
            break;
        }
    }
    Err(i)
}

// The field that begins at the place, or the first byte that it cannot have, or the end of the text.
pub(crate) fn field_at(text: &[u8], at: usize) -> Result<Field, usize>
    requires { at ≤ length text.now }
    ensures { FieldAt text.now at result }
{
    let to = if at < text.len() && text[at] == b'"' {
        quoted_end(text, at)?
    } else {
        plain_end(text, at)
    };
    Ok(Field { from: at, to })
}

// Whether a CR and an LF stand at the place.
fn is_crlf(text: &[u8], at: usize) -> bool
    requires { at < length text.now }
    ensures { Decides result (HasCrlf text.now at) }
{
    at + 1 < text.len() && text[at] == b'\r' && text[at + 1] == b'\n'
}

// What stands at the place, behind a field.
pub(crate) fn behind_field(text: &[u8], at: usize) -> Behind
    requires { at ≤ length text.now }
    ensures { Follows text.now at result }
{
    if at == text.len() {
        return Behind::End(at);
    }
    match text[at] {
        b',' => Behind::Comma,
        b'\r' if is_crlf(text, at) => Behind::End(at + 2),
        b'\r' => Behind::Impossible(at + 1),
        _ => Behind::Impossible(at),
    }
}

// The place behind the first CRLF from a place on, or the end of the text where there is none.
#[tactic(auto, using(crate::proofs::Resuming::resumed_past, crate::proofs::Resuming::resumed_crlf, crate::proofs::Resuming::resumed_more))]
pub(crate) fn resume(text: &[u8], from: usize) -> usize
    ensures { result ≡ resumed text.now from }
{
    for i in from..text.len() {
        if is_crlf(text, i) {
            return i + 2;
        }
    }
    text.len()
}
