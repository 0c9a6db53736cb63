// One walk over a tag from the left, which writes the tag as the edit leaves it into the rows that it reads. Writing never overtakes reading, so each
// entry, header and value is read before it is overwritten. A refusal may come after the first bytes are written; so the caller measures the tag
// first, and then no refusal comes. A support crate: its functions may have a `requires`.
#![tactic(auto)]

ghost use Rattle.std.specs.Prelude.{◌≡◌, ◌+◌, ◌≤◌, ◌<◌, length, take, drop};
ghost use Rattle.lent.specs.Lists.{last_or};
ghost use Rattle.samtags.specs.Bytes.{comma, semicolon};
ghost use Rattle.samtags.specs.Text.{up_to, led_by, closed_by};
ghost use Rattle.samtags.specs.Spots.{tracked};
ghost use Rattle.samtags.specs.Reading.{read_spots, read_group, read_groups};
ghost use Rattle.fields.specs.Fields.{field_of};
ghost use Rattle.changing.specs.Drafts.{draft, entry_put};
ghost use Rattle.changing.specs.Windows.{held_in, is_marked, denied_in, window_edit};
ghost use Rattle.strides.specs.Counts.{Told};
ghost use Rattle.drafting.specs.Walks.{EntriesEdited, GroupEdited, TagEdited};

use drafting::Cursor;
use entries::{Kind, Pen};
use lent::Refusal;
use places::Place;
use strides::Window;

// Writes a call as the edit leaves it: listed with its values, which are at `used` in the row; or dropped, so that its base counts in the next skip;
// or gone with its base.
fn put_entry(
    after: &[u8],
    marks: &[u8],
    window: Window,
    kind: Kind,
    place: Place,
    pen: Pen,
    used: usize,
    text: &mut [u8],
    ml: &mut [u8],
) -> Pen
    requires { (pen.end ≤ 1048576) × (pen.kept ≤ used) × (pen.gap ≤ 1048576) × (used + kind.values ≤ length ml.old) }
    ensures { entry_put (held_in window.lo after.now kind.base place.0) (is_marked marks.now place.0)
        (draft text.old pen.end ml.old pen.kept) pen.gap (take kind.values (drop used ml.old))
        ≡ (draft text.new result.end ml.new result.kept, result.gap) }
{
    let held = changing::still_held(kind.base, after, window.lo, place);
    if !held {
        return pen;
    }
    let end = pen.end;
    let kept = pen.kept;
    let gap = pen.gap;
    let named = changing::is_named(marks, place);
    if named {
        return Pen {
            end,
            kept,
            gap: gap + 1,
        };
    }
    let values = kind.values;
    let next_end = entries::put_skip(text, end, gap);
    moving::move_left(ml, used, kept, values);
    Pen {
        end: next_end,
        kept: kept + values,
        gap: 0,
    }
}

// Edits a group's entries, from the separator at the cursor on, up to the ';' that closes the group.
fn edit_entries(
    seq: &[u8],
    after: &[u8],
    marks: &[u8],
    window: Window,
    kind: Kind,
    start: Cursor,
    text: &mut [u8],
    ml: &mut [u8],
) -> Result<Cursor, Refusal>
    requires seq_len_bound { (length seq.now ≤ 16000) × (length text.old ≤ 65536) × (length ml.old ≤ 65536) × Told window after.now seq.now }
    requires text_in_bounds { start.at + length (up_to semicolon (drop start.at text.old)) < length text.old }
    requires text_len { length (field_of (drop start.at text.old)) ≡ 0 }
    requires used_in_bounds { (start.used ≤ length ml.old) × (start.end ≤ start.at) × (start.kept ≤ start.used) }
    ensures { EntriesEdited (held_in window.lo after.now kind.base) (is_marked marks.now) text.old ml.old start
        (read_spots kind.values (denied_in marks.now kind.may_drop)
        (led_by comma (up_to semicolon (drop start.at text.old))) (tracked kind.base seq.now)
        (drop start.used ml.old))
        text.old ml.old result text.new ml.new }
{
    let mut at = start.at;
    let mut used = start.used;
    let mut pen = start.pen();
    let mut from = Place(0);
    // A cursor, not a count: an entry's field is as long as it is.
    while text[at] == b',' {
        let left = ml.len() - used;
        let field = fields::next_field(text, at + 1);
        let width = field.len();
        let (place, passed) = entries::read_entry(
            seq, after, marks, field, window, kind, from, left,
        )?;
        let waiting = pen.past(passed);
        pen = put_entry(after, marks, window, kind, place, waiting, used, text, ml);
        from = Place(place.0 + 1);
        used = used + kind.values;
        at = at + 1 + width;
    }
    Ok(Cursor::behind(at, used, pen))
}

// Edits the group that begins at a byte of the text, up to and including its ';', and writes it from the rows' starts on.
fn edit_group(
    seq: &[u8],
    after: &[u8],
    marks: &[u8],
    window: Window,
    has_ml: bool,
    at: usize,
    used: usize,
    text: &mut [u8],
    ml: &mut [u8],
) -> Result<Cursor, Refusal>
    requires seq_len_bound { (length seq.now ≤ 16000) × (length text.old ≤ 65536) × (length ml.old ≤ 65536) × Told window after.now seq.now }
    requires text_in_bounds { at + length (up_to semicolon (drop at text.old)) < length text.old }
    requires used_in_bounds { used ≤ length ml.old }
    ensures { GroupEdited (window_edit window.lo after.now marks.now) text.old ml.old at used
        (read_group has_ml (is_marked marks.now) seq.now (up_to semicolon (drop at text.old))
        (drop used ml.old))
        text.old ml.old result text.new ml.new }
{
    let header = fields::next_field(text, at);
    let width = header.len();
    if width < 2 {
        return Err(Refusal::ShortHeader);
    }
    let kind = entries::kind_of(has_ml, header);
    moving::move_left(text, at, 0, width);
    let start = Cursor {
        at: at + width,
        used,
        end: width,
        kept: 0,
    };
    let stop = edit_entries(seq, after, marks, window, kind, start, text, ml)?;
    let last = stop.end;
    text[last] = b';';
    Ok(Cursor {
        at: stop.at + 1,
        used: stop.used,
        end: last + 1,
        kept: stop.kept,
    })
}

// Edits all groups of a text that ends in ';'. Each is written where the last one ended, into the rows from there on. After the last group no value
// of ML may be left over.
pub fn edit_groups(
    seq: &[u8],
    after: &[u8],
    marks: &[u8],
    lo: usize,
    has_ml: bool,
    text: &mut [u8],
    ml: &mut [u8],
) -> Result<Cursor, Refusal>
    requires { (length seq.now ≤ 16000) × (length text.old ≤ 65536) × (length ml.old ≤ 65536) × (last_or 0 text.old ≡ semicolon) }
    ensures { TagEdited (window_edit lo after.now marks.now)
        (read_groups has_ml (is_marked marks.now) seq.now (closed_by semicolon text.old) ml.old)
        text.old ml.old result text.new ml.new }
{
    // SEQ and `after` are compared once, for all entries of all groups; for a drop they are the same.
    let window = windows::window_of(seq, after, lo);
    let mut c = Cursor {
        at: 0,
        used: 0,
        end: 0,
        kept: 0,
    };
    // A cursor, not a count: a group is as long as it is.
    while c.at < text.len() {
        let end = c.end;
        let kept = c.kept;
        let group = edit_group(
            seq,
            after,
            marks,
            window,
            has_ml,
            c.at - end,
            c.used - kept,
            &mut text[end..],
            &mut ml[kept..],
        )?;
        c = Cursor {
            at: end + group.at,
            used: kept + group.used,
            end: end + group.end,
            kept: kept + group.kept,
        };
    }
    if c.used < ml.len() {
        return Err(Refusal::MlLeftOver);
    }
    Ok(c)
}
