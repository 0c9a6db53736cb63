// One walk over a tag from the left, which answers, and writes the tag as the edit leaves it. The rows are written as far as they reach. So the same
// walk measures over empty rows, and writes into the caller's rows once the tag is known to fit. Writing never overtakes reading. A support crate:
// its functions may have a `requires`.
#![tactic(auto)]

ghost use Rattle.std.specs.Prelude.{◌≡◌, ◌+◌, ◌≤◌, ◌<◌, min, length, drop};
ghost use Rattle.lent.specs.Lists.{last_or};
ghost use Rattle.samtags.specs.Bytes.{comma, semicolon};
ghost use Rattle.samtags.specs.Text.{up_to, led_by, closed_by};
ghost use Rattle.samtags.specs.Spots.{tracked};
ghost use Rattle.samtags.specs.Reading.{read_spots, read_group, read_groups};
ghost use Rattle.fields.specs.Fields.{field_of};
ghost use Rattle.strides.specs.Counts.{Told};
ghost use Rattle.drafting.specs.Walks.{EntriesEdited, GroupEdited, TagEdited, pen_of, cursor_at};
ghost use Rattle.changing.specs.Windows.{held_in, is_marked, denied_in, window_edit};

use entries::{Kind, Pen};
use lent::Refusal;
use places::Place;
use strides::Window;

// The state of a walk: the next byte of the text, the next value of ML, and the end of the written part of each row.
#[derive(Clone, Copy)]
pub struct Cursor {
    pub at: usize,
    pub used: usize,
    pub end: usize,
    pub kept: usize,
}

impl Cursor {
    // The pen at the ends of the written parts, with no base passed yet.
    pub fn pen(self) -> Pen
        ensures { result ≡ pen_of self }
    {
        Pen {
            end: self.end,
            kept: self.kept,
            gap: 0,
        }
    }

    // The cursor of a walk that has read up to byte `at` and value `used`.
    pub fn behind(at: usize, used: usize, pen: Pen) -> Cursor
        ensures { result ≡ cursor_at at used pen }
    {
        Cursor {
            at,
            used,
            end: pen.end,
            kept: pen.kept,
        }
    }
}

// Edits a group's entries, from the separator at the cursor on, up to the ';' that closes the group.
fn edit_entries(
    seq: &[u8],
    after: &[u8],
    marks: &[u8],
    text: &[u8],
    ml: &[u8],
    window: Window,
    kind: Kind,
    start: Cursor,
    out: &mut [u8],
    ml_out: &mut [u8],
) -> Result<Cursor, Refusal>
    requires seq_len_bound { (length seq.now ≤ 16000) × (length text.now ≤ 65536) × (length ml.now ≤ 65536) × Told window after.now seq.now }
    requires text_in_bounds { start.at + length (up_to semicolon (drop start.at text.now)) < length text.now }
    requires text_len { length (field_of (drop start.at text.now)) ≡ 0 }
    requires used_in_bounds { (start.used ≤ length ml.now) × (start.end ≤ 65536) × (start.kept ≤ 65536) }
    ensures { EntriesEdited (held_in window.lo after.now kind.base) (is_marked marks.now) text.now ml.now start
        (read_spots kind.values (denied_in marks.now kind.may_drop)
        (led_by comma (up_to semicolon (drop start.at text.now))) (tracked kind.base seq.now)
        (drop start.used ml.now))
        out.old ml_out.old result out.new ml_out.new }
{
    let values = kind.values;
    let mut at = start.at;
    let mut used = start.used;
    let mut pen = start.pen();
    let mut from = Place(0);
    // A cursor, not a count: an entry's field is as long as it is.
    while text[at] == b',' {
        let field = fields::next_field(text, at + 1);
        let left = ml.len() - used;
        let (place, passed) = entries::read_entry(
            seq, after, marks, field, window, kind, from, left,
        )?;
        let waiting = pen.past(passed);
        let own = &ml[used..used + values];
        pen = entries::put_entry(after, marks, window, kind, place, own, waiting, out, ml_out);
        from = Place(place.0 + 1);
        used = used + values;
        at = at + 1 + field.len();
    }
    Ok(Cursor::behind(at, used, pen))
}

// Edits the group that begins at a byte of the text, up to and including its ';', into the rows from their starts on.
fn edit_group(
    seq: &[u8],
    after: &[u8],
    marks: &[u8],
    text: &[u8],
    ml: &[u8],
    window: Window,
    has_ml: bool,
    at: usize,
    used: usize,
    out: &mut [u8],
    ml_out: &mut [u8],
) -> Result<Cursor, Refusal>
    requires seq_len_bound { (length seq.now ≤ 16000) × (length text.now ≤ 65536) × (length ml.now ≤ 65536) × Told window after.now seq.now }
    requires text_in_bounds { at + length (up_to semicolon (drop at text.now)) < length text.now }
    requires used_in_bounds { used ≤ length ml.now }
    ensures { GroupEdited (window_edit window.lo after.now marks.now) text.now ml.now at used
        (read_group has_ml (is_marked marks.now) seq.now (up_to semicolon (drop at text.now))
        (drop used ml.now))
        out.old ml_out.old result out.new ml_out.new }
{
    let header = fields::next_field(text, at);
    if header.len() < 2 {
        return Err(Refusal::ShortHeader);
    }
    let kind = entries::kind_of(has_ml, header);
    let end = entries::put_all(out, 0, header);
    let from = Cursor {
        at: at + header.len(),
        used,
        end,
        kept: 0,
    };
    let stop = edit_entries(seq, after, marks, text, ml, window, kind, from, out, ml_out)?;
    let last = stop.end;
    numbers::put(out, last, b';');
    Ok(Cursor {
        at: stop.at + 1,
        used: stop.used,
        end: last + 1,
        kept: stop.kept,
    })
}

// Edits all groups of a text that ends in ';'. Each is written where the last one ended. After the last group no value of ML may be left over.
pub fn edit_groups(
    seq: &[u8],
    after: &[u8],
    marks: &[u8],
    text: &[u8],
    ml: &[u8],
    lo: usize,
    has_ml: bool,
    out: &mut [u8],
    ml_out: &mut [u8],
) -> Result<Cursor, Refusal>
    requires { (length seq.now ≤ 16000) × (length text.now ≤ 65536) × (length ml.now ≤ 65536) × (last_or 0 text.now ≡ semicolon) }
    ensures { TagEdited (window_edit lo after.now marks.now)
        (read_groups has_ml (is_marked marks.now) seq.now (closed_by semicolon text.now) ml.now)
        out.old ml_out.old result out.new ml_out.new }
{
    // SEQ and `after` are compared once, for all entries of all groups; for a drop they are the same.
    let window = windows::window_of(seq, after, lo);
    let mut c = Cursor {
        at: 0,
        used: 0,
        end: 0,
        kept: 0,
    };
    // A cursor, not a count: a group is as long as it is.
    while c.at < text.len() {
        let room = c.end.min(out.len());
        let ml_room = c.kept.min(ml_out.len());
        let group = edit_group(
            seq,
            after,
            marks,
            text,
            ml,
            window,
            has_ml,
            c.at,
            c.used,
            &mut out[room..],
            &mut ml_out[ml_room..],
        )?;
        c = Cursor {
            at: group.at,
            used: group.used,
            end: c.end + group.end,
            kept: c.kept + group.kept,
        };
    }
    if c.used < ml.len() {
        return Err(Refusal::MlLeftOver);
    }
    Ok(c)
}
