// A value's numbers, read byte by byte.
ghost use Rattle.std.specs.Prelude.{◌≡◌, ◌≤◌, ◌<◌, true, length, take};
ghost use Rattle.text.specs.Numbers.{is_digit, first_digit, more_digits, number_end, byte_read, numbers_outcome, numbers};
ghost use Rattle.text.specs.Progress.{partial_of, complete_count, answered, Goes, After};

// How far a value was read: before the first digit of number k; within number k, which is n so far;
// past the line feed; of wrong form.
#[derive(Clone, Copy)]
pub enum Progress {
    Start(usize),
    Digits(usize, u16),
    Done,
    Broken,
}

// The first digit of number k.
fn first_digit(k: usize, b: u8) -> Progress
    ensures { Goes k result (λ l. first_digit l b) }
{
    if b.is_ascii_digit() {
        return Progress::Digits(k, u16::from(b - b'0'));
    }
    Progress::Broken
}

// A further digit of number k, which is n so far.
fn more_digits(k: usize, n: u16, b: u8) -> Progress
    requires { is_digit b ≡ true }
    ensures { Goes k result (λ l. more_digits l n b) }
{
    if n == 0 {
        return Progress::Broken;
    }
    match u16::try_from(u32::from(n) * 10 + u32::from(b - b'0')) {
        Ok(more) => Progress::Digits(k, more),
        Err(_) => Progress::Broken,
    }
}

// The byte after number k, which is n: a comma or the line feed, as more numbers are due or not.
fn number_end(k: usize, n: u16, b: u8, out: &mut [u16]) -> Progress
    requires { k ≤ length out.old }
    ensures { After result out.new (number_end (length out.old) (take k out.old) n b) }
{
    let due = out.len() - k;
    match b {
        b',' if 1 < due => {
            out[k] = n;
            Progress::Start(k + 1)
        }
        b'\n' if due == 1 => {
            out[k] = n;
            Progress::Done
        }
        _ => Progress::Broken,
    }
}

// One byte more.
fn read_byte(p: Progress, b: u8, out: &mut [u16]) -> Progress
    requires { complete_count p ≤ length out.old }
    ensures { After result out.new (byte_read (length out.old) (partial_of p out.old) b) }
{
    match p {
        Progress::Start(k) => first_digit(k, b),
        Progress::Digits(k, n) if b.is_ascii_digit() => more_digits(k, n, b),
        Progress::Digits(k, n) => number_end(k, n, b, out),
        Progress::Done | Progress::Broken => Progress::Broken,
    }
}

// Fills a list with the numbers of a value that is to hold just as many, and answers whether its
// form is right. Where it is wrong, nothing is said of the list. A bool: the numbers are the caller's
// own list, whose length says how many are due.
pub fn read_numbers(value: &[u8], out: &mut [u16]) -> bool
    ensures { answered result out.new ≡ numbers (length out.old) value.now }
{
    let mut p = Progress::Start(0);
    for b in value {
        p = read_byte(p, *b, out);
    }
    matches!(p, Progress::Done)
}
