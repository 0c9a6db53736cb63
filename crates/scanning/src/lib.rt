// One walk over a tag from the left, which answers, counts and lists the calls. The columns are written as far as they reach, so they may be of any length.
#![tactic(auto)]

ghost use Rattle.std.specs.Prelude.{◌≡◌, cond, ◌+◌, ◌≤◌, ◌<◌, length, drop, set};
ghost use Rattle.lent.specs.Lists.{last_or};
ghost use Rattle.samtags.specs.Bytes.{comma, semicolon};
ghost use Rattle.samtags.specs.Text.{up_to, led_by, closed_by};
ghost use Rattle.samtags.specs.Spots.{tracked};
ghost use Rattle.samtags.specs.Reading.{nowhere, read_spots, read_group, read_groups};
ghost use Rattle.fields.specs.Fields.{field_of};
ghost use Rattle.scanning.specs.Scanning.{columns, EntriesScanned, GroupScanned, TagScanned};

use lent::Refusal;
use places::{Place, find_entry};

// The state of a walk: the next byte of the text, the next value of ML, and how many groups and calls were passed.
#[derive(Clone, Copy)]
pub struct Cursor {
    pub at: usize,
    pub used: usize,
    pub group: usize,
    pub calls: usize,
}

// Stores a call's row at index n of the list.
fn list_call(
    groups: &mut [u32],
    places: &mut [u32],
    starts: &mut [u32],
    n: usize,
    group: usize,
    place: Place,
    start: usize,
)
    requires { (group ≤ 65536) × (place.0 ≤ 65536) × (start ≤ 65536) }
    ensures groups_after { groups.new ≡ set groups.old n group }
    ensures places_after { places.new ≡ set places.old n place.0 }
    ensures starts_after { starts.new ≡ set starts.old n start }
{
    numbers::put(groups, n, group as u32);
    numbers::put(places, n, place.0 as u32);
    numbers::put(starts, n, start as u32);
}

// Scans a group's entries, from the separator at the cursor on, up to the ';' that closes the group.
fn scan_entries(
    seq: &[u8],
    text: &[u8],
    ml: &[u8],
    base: u8,
    values: usize,
    start: Cursor,
    groups: &mut [u32],
    places: &mut [u32],
    starts: &mut [u32],
) -> Result<Cursor, Refusal>
    requires seq_len_bound { (length seq.now ≤ 16000) × (length text.now ≤ 65536) × (length ml.now ≤ 65536) }
    requires text_in_bounds { start.at + length (up_to semicolon (drop start.at text.now)) < length text.now }
    requires text_len { length (field_of (drop start.at text.now)) ≡ 0 }
    requires used_in_bounds { (start.used ≤ length ml.now) × (start.group ≤ start.at) × (start.calls ≤ start.at) }
    ensures { EntriesScanned text.now ml.now start
        (read_spots values nowhere (led_by comma (up_to semicolon (drop start.at text.now))) (tracked base seq.now)
        (drop start.used ml.now))
        (columns groups.old places.old starts.old)
        result
        (columns groups.new places.new starts.new) }
{
    let mut at = start.at;
    let mut used = start.used;
    let mut calls = start.calls;
    let mut from = Place(0);
    // A cursor, not a count: an entry's field is as long as it is.
    while text[at] == b',' {
        let field = fields::next_field(text, at + 1);
        let place = find_entry(seq, base, field, from)?;
        if ml.len() - used < values {
            return Err(Refusal::MlTooShort);
        }
        list_call(groups, places, starts, calls, start.group, place, used);
        from = Place(place.0 + 1);
        used = used + values;
        calls = calls + 1;
        at = at + 1 + field.len();
    }
    Ok(Cursor {
        at,
        used,
        group: start.group,
        calls,
    })
}

// Scans the group that begins at the cursor, up to and including its ';'.
fn scan_group(
    seq: &[u8],
    text: &[u8],
    ml: &[u8],
    has_ml: bool,
    start: Cursor,
    groups: &mut [u32],
    places: &mut [u32],
    starts: &mut [u32],
) -> Result<Cursor, Refusal>
    requires seq_len_bound { (length seq.now ≤ 16000) × (length text.now ≤ 65536) × (length ml.now ≤ 65536) }
    requires text_in_bounds { start.at + length (up_to semicolon (drop start.at text.now)) < length text.now }
    requires used_in_bounds { (start.used ≤ length ml.now) × (start.group ≤ start.at) × (start.calls ≤ start.at) }
    ensures { GroupScanned text.now ml.now start
        (read_group has_ml nowhere seq.now (up_to semicolon (drop start.at text.now)) (drop start.used ml.now))
        (columns groups.old places.old starts.old)
        result
        (columns groups.new places.new starts.new) }
{
    let at = start.at;
    let header = fields::next_field(text, at);
    if header.len() < 2 {
        return Err(Refusal::ShortHeader);
    }
    let values = headers::values_if(has_ml, header);
    let base = headers::base_of(header);
    let entries = Cursor {
        at: at + header.len(),
        used: start.used,
        group: start.group + 1,
        calls: start.calls,
    };
    let end = scan_entries(seq, text, ml, base, values, entries, groups, places, starts)?;
    Ok(Cursor {
        at: end.at + 1,
        used: end.used,
        group: end.group,
        calls: end.calls,
    })
}

// Scans all groups of a text that ends in ';'. After the last one no value of ML may be left over.
pub fn scan_groups(
    seq: &[u8],
    text: &[u8],
    ml: &[u8],
    has_ml: bool,
    groups: &mut [u32],
    places: &mut [u32],
    starts: &mut [u32],
) -> Result<Cursor, Refusal>
    requires { (length seq.now ≤ 16000) × (length text.now ≤ 65536) × (length ml.now ≤ 65536) × (last_or 0 text.now ≡ semicolon) }
    ensures { TagScanned
        (read_groups has_ml nowhere seq.now (closed_by semicolon text.now) ml.now)
        (columns groups.old places.old starts.old)
        result
        (columns groups.new places.new starts.new) }
{
    let mut c = Cursor {
        at: 0,
        used: 0,
        group: 0,
        calls: 0,
    };
    // A cursor, not a count: a group is as long as it is.
    while c.at < text.len() {
        c = scan_group(seq, text, ml, has_ml, c, groups, places, starts)?;
    }
    if c.used < ml.len() {
        return Err(Refusal::MlLeftOver);
    }
    Ok(c)
}

// How many values of the lent ML row are used: none without ML.
pub fn values_taken(lent: usize, has_ml: bool) -> usize
    ensures { result ≡ cond has_ml lent 0 }
{
    if has_ml {
        return lent;
    }
    0
}
