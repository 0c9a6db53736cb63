// A first walk over a tag that needs no places. Whether a tag is refused with 3 to 9 depends on how many bases of a group's letter SEQ has, not on
// their places. So they are counted once for each group, and no entry's base is looked up. A support crate: its functions may have a `requires`.
#![tactic(auto)]

ghost use Rattle.std.specs.Prelude.{◌≡◌, Bool, cond, false, List, [], ℕ, ◌+◌, ◌≤◌, ◌<◌, length, drop};
ghost use Rattle.lent.specs.Lists.{last_or};
ghost use Rattle.samtags.specs.Bytes.{comma, semicolon};
ghost use Rattle.samtags.specs.Text.{up_to, led_by, closed_by};
ghost use Rattle.samtags.specs.Reading.{nowhere, read, read_spots, read_group, read_groups};
ghost use Rattle.fields.specs.Fields.{field_of};
ghost use Rattle.measuring.specs.Counting.{EntriesCounted, GroupCounted, TagCounted};

use lent::Refusal;

// The state of a walk: the next byte of the text, the next value of ML, and how many groups and calls were passed.
#[derive(Clone, Copy)]
pub struct Count {
    pub at: usize,
    pub used: usize,
    pub group: usize,
    pub calls: usize,
}

// Counts a group's entries, from the separator at the cursor on, up to the ';' that closes the group. SEQ has `all` bases of the group's kind.
fn count_entries(
    text: &[u8],
    ml: &[u8],
    values: usize,
    all: usize,
    start: Count,
) -> Result<Count, Refusal>
    requires text_len_bound { (length text.now ≤ 65536) × (length ml.now ≤ 65536) × (all ≤ 16000) }
    requires text_in_bounds { start.at + length (up_to semicolon (drop start.at text.now)) < length text.now }
    requires text_len { length (field_of (drop start.at text.now)) ≡ 0 }
    requires used_in_bounds { (start.used ≤ length ml.now) × (start.calls ≤ start.at) }
    ensures { (places : List ℕ) → all ≡ length places
        → EntriesCounted text.now ml.now start
        (read_spots values nowhere (led_by comma (up_to semicolon (drop start.at text.now))) places (drop start.used ml.now))
        result }
{
    let mut at = start.at;
    let mut used = start.used;
    let mut calls = start.calls;
    let mut left = all;
    // A cursor, not a count: an entry's field is as long as it is.
    while text[at] == b',' {
        let field = fields::next_field(text, at + 1);
        let skip = numbers::read_skip(field, 16001)?;
        if left <= skip {
            return Err(Refusal::SkipTooFar);
        }
        if ml.len() - used < values {
            return Err(Refusal::MlTooShort);
        }
        left = left - skip - 1;
        used = used + values;
        calls = calls + 1;
        at = at + 1 + field.len();
    }
    Ok(Count {
        at,
        used,
        group: start.group,
        calls,
    })
}

// Counts the group that begins at the cursor, up to and including its ';'. `marked`: some calls are to be dropped. Ok with None if the group's header
// does not allow that. Then only the places tell whether the tag is refused with 10 before an error further right.
fn count_group(
    seq: &[u8],
    text: &[u8],
    ml: &[u8],
    has_ml: bool,
    marked: bool,
    start: Count,
) -> Result<Option<Count>, Refusal>
    requires seq_len_bound { (length seq.now ≤ 16000) × (length text.now ≤ 65536) × (length ml.now ≤ 65536) }
    requires text_in_bounds { start.at + length (up_to semicolon (drop start.at text.now)) < length text.now }
    requires used_in_bounds { (start.used ≤ length ml.now) × (start.group ≤ start.at) × (start.calls ≤ start.at) }
    ensures { (named : ℕ → Bool) → (marked ≡ false → named ≡ nowhere)
        → GroupCounted marked text.now ml.now start
        (read_group has_ml named seq.now (up_to semicolon (drop start.at text.now)) (drop start.used ml.now))
        result }
{
    let at = start.at;
    let header = fields::next_field(text, at);
    if header.len() < 2 {
        return Err(Refusal::ShortHeader);
    }
    let values = headers::values_if(has_ml, header);
    let base = headers::base_of(header);
    let may_drop = headers::ends_in_question(header);
    if marked && !may_drop {
        return Ok(None);
    }
    let all = strides::how_many(seq, base);
    let entries = Count {
        at: at + header.len(),
        used: start.used,
        group: start.group + 1,
        calls: start.calls,
    };
    let end = count_entries(text, ml, values, all, entries)?;
    Ok(Some(Count {
        at: end.at + 1,
        used: end.used,
        group: end.group,
        calls: end.calls,
    }))
}

// Counts all groups of a text that ends in ';'. After the last one no value of ML may be left over.
fn count_groups(
    seq: &[u8],
    text: &[u8],
    ml: &[u8],
    has_ml: bool,
    marked: bool,
) -> Result<Option<Count>, Refusal>
    requires { (length seq.now ≤ 16000) × (length text.now ≤ 65536) × (length ml.now ≤ 65536) × (last_or 0 text.now ≡ semicolon) }
    ensures { (named : ℕ → Bool) → (marked ≡ false → named ≡ nowhere)
        → TagCounted marked (read_groups has_ml named seq.now (closed_by semicolon text.now) ml.now) result }
{
    let mut c = Count {
        at: 0,
        used: 0,
        group: 0,
        calls: 0,
    };
    // A cursor, not a count: a group is as long as it is.
    while c.at < text.len() {
        let Some(next) = count_group(seq, text, ml, has_ml, marked, c)? else {
            return Ok(None);
        };
        c = next;
    }
    if c.used < ml.len() {
        return Err(Refusal::MlLeftOver);
    }
    Ok(Some(c))
}

// Checks a whole tag for 3 to 9, and counts its groups and calls. Without ML the ML row is empty. None if calls are `marked` and a group may lose none:
// then only the places tell.
pub fn count_tag(
    seq: &[u8],
    text: &[u8],
    ml: &[u8],
    has_ml: bool,
    marked: bool,
) -> Result<Option<Count>, Refusal>
    requires { (length seq.now ≤ 16000) × (length text.now ≤ 65536) × (length ml.now ≤ 65536) × (cond has_ml ml.now [] ≡ ml.now) }
    ensures { (named : ℕ → Bool) → (marked ≡ false → named ≡ nowhere)
        → TagCounted marked (read has_ml named seq.now text.now ml.now) result }
{
    let ascii = fields::all_ascii(text);
    if !ascii {
        return Err(Refusal::MmNotAscii);
    }
    let closed = fields::ends_in_semicolon(text);
    if !closed {
        return Err(Refusal::MmNotClosed);
    }
    count_groups(seq, text, ml, has_ml, marked)
}
