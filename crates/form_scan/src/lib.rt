// The lines of a text at which a form begins or the forms end, found in one scan of its bytes.
#![tactic(auto)]

ghost use Rattle.std.specs.Prelude.{◌≡◌, ◌≤◌, length};
ghost use Rattle.sheet_rules.specs.Stretch.{form_border};
ghost use Rattle.form_scan.specs.Borders.{border_place};

// Whether a form begins, or the forms end, at a line.
fn is_border(line: &[u8]) -> bool
    ensures { result ≡ form_border line.now }
{
    line.starts_with(b"form=") || line.starts_with(b"devices=") || line.starts_with(b"main=")
}

// Where the border of number `count` stands, counted from 0, of those from a line's place on; the text's end if there is none.
pub fn find_border(text: &[u8], from: usize, count: usize) -> usize
    requires { from ≤ length text.now }
    ensures { result ≡ border_place text.now from count }
{
    let mut at = from;
    let mut left = count;
    for line in text[from..].split_inclusive(|&byte| byte == b'\n') {
        if is_border(line) {
            if left == 0 {
                return at;
            }
            left -= 1;
        }
        at += line.len();
    }
    at
}
