// Texts of a counted list: a line `title=N`, then N lines `key=number`.
ghost use Rattle.std.specs.Prelude.{◌≡◌, ◌≤◌, [], length, drop, IfOk};
ghost use Rattle.arrayvec.specs.ArrayVec.{array_vec_len};
ghost use Rattle.text.specs.Lines.{lines};
ghost use Rattle.lists.specs.CountedList.{bound_at, entry_in, count_in, read_entries, read_list};
ghost use Rattle.lists.specs.Listed.{listed_as};

use arrayvec::ArrayVec;

// How many numbers a list may have, from the least to the most; and what they may be: the first is
// below one bound, the others below another.
#[derive(Clone, Copy)]
pub struct Ranges {
    pub least: u16,
    pub most: u16,
    pub first: u32,
    pub rest: u32,
}

// Number i of a list is below this.
fn bound_at(ranges: Ranges, i: usize) -> u32
    ensures { result ≡ bound_at ranges i }
{
    if i == 0 { ranges.first } else { ranges.rest }
}

// The one number of a line with this key, where it is below a bound.
fn read_entry(line: &[u8], key: &[u8], bound: u32) -> Option<u16>
    ensures { result ≡ entry_in key.now bound line.now }
{
    let mut number = [0u16; 1];
    let value = text::lines::value(line, key);
    if !text::numbers::read_numbers(value, &mut number) {
        return None;
    }
    let v = number[0];
    (u32::from(v) < bound).then_some(v)
}

// How many numbers the first line of a list says that there are, where it may have so many.
fn read_count(line: &[u8], title: &[u8], ranges: Ranges) -> Option<u16>
    ensures { result ≡ count_in title.now ranges line.now }
{
    let count = read_entry(line, title, u32::from(ranges.most) + 1)?;
    (ranges.least <= count).then_some(count)
}

// The numbers of the lines from a place on, after the first line, which says how many there are, in
// place of what the list held. A missing line is read as an empty one, which has no number.
fn read_entries<const N: usize>(
    text: &[u8],
    start: usize,
    key: &[u8],
    ranges: Ranges,
    count: usize,
    list: &mut ArrayVec<u16, N>,
) -> Result<(), usize>
    requires room { count ≤ N }
    requires within { start ≤ length text.now }
    ensures { listed_as result list.new ≡ read_entries key.now (bound_at ranges) [] count (lines (drop start text.now)) }
{
    list.clear();
    let mut at = start;
    for n in 0..count {
        let end = text::lines::line_end(text, at);
        let bound = bound_at(ranges, n);
        let number = read_entry(&text[at..end], key, bound).ok_or(n + 2)?;
        list.push(number);
        at = end;
    }
    if at < text.len() {
        return Err(count + 2);
    }
    Ok(())
}

// Reads any bytes as a list, in place of what the list held; or answers at which line its text is
// refused. On a refusal nothing is said of the numbers.
pub fn read_list<const N: usize>(
    text: &[u8],
    title: &[u8],
    key: &[u8],
    ranges: Ranges,
    list: &mut ArrayVec<u16, N>,
) -> Result<(), usize>
    requires { ranges.most ≤ N }
    ensures is { listed_as result list.new ≡ read_list title.now key.now ranges text.now }
    ensures few { IfOk result (λ _. array_vec_len list.new ≤ ranges.most) }
{
    let end = text::lines::line_end(text, 0);
    let count = read_count(&text[..end], title, ranges).ok_or(1usize)?;
    read_entries(text, end, key, ranges, usize::from(count), list)
}
