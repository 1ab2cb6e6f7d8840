// A number in its column.
ghost use Rattle.std.specs.Prelude.{◌≡◌, ◌≤◌, length};
ghost use Rattle.text.specs.Written.{decimal};
ghost use Rattle.layout.specs.Column.{column as column_of};

// A number, set right in the bytes of its column.
pub fn column(out: &mut [u8], n: u64)
    requires { length (decimal n) ≤ length out.old }
    ensures { out.new ≡ column_of (length out.old) n }
{
    let end = out.len();
    let start = itoa::write_digits(n, out, end);
    out[..start].fill(b' ');
}
