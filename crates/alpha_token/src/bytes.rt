ghost use Rattle.std.specs.Prelude.{◌≡◌, ◌≤◌, ◌-◌, length, take, drop};
ghost use Rattle.std.specs.List.{list_all, prefix_len};
ghost use Rattle.std.specs.Str.Lines.{strip_carriage_return};
ghost use Rattle.std.specs.Char.{is_ascii_alphabetic, is_ascii_alphanumeric, is_ascii_digit, is_ascii_hexdigit};
ghost use Rattle.alpha_token.specs.Bytes.{is_blank, begins_label, goes_on_label, is_label, begins_name, goes_on_name};

/// Whether a byte is a blank: a space or a tab.
#[inline(always)]
pub fn is_blank(b: u8) -> bool
    ensures { result ≡ is_blank b }
{
    b == b' ' || b == b'\t'
}

/// Whether a byte begins a label: a letter or `_`.
#[inline(always)]
pub fn begins_label(b: u8) -> bool
    ensures { result ≡ begins_label b }
{
    b.is_ascii_alphabetic() || b == b'_'
}

fn goes_on_label(b: u8) -> bool
    ensures { result ≡ goes_on_label b }
{
    b.is_ascii_alphanumeric() || b == b'_' || b == b'.'
}

fn go_on_label(bytes: &[u8]) -> bool
    ensures { result ≡ list_all goes_on_label bytes.now }
{
    bytes.iter().all(|b| goes_on_label(*b))
}

/// Whether bytes are a label: a letter or `_`, and then letters, digits, `_` and `.`.
pub fn is_label(name: &[u8]) -> bool
    ensures { result ≡ is_label name.now }
{
    match name {
        [] => false,
        [first, others @ ..] => begins_label(*first) && go_on_label(others),
    }
}

pub(crate) fn begins_name(b: u8) -> bool
    ensures { result ≡ begins_name b }
{
    begins_label(b) || b == b'.'
}

fn goes_on_name(b: u8) -> bool
    ensures { result ≡ goes_on_name b }
{
    goes_on_label(b) || b == b'/'
}

/// A line without the one carriage return at its end, if it has one.
#[inline(always)]
pub fn without_return(line: &[u8]) -> &[u8]
    ensures { result.now ≡ strip_carriage_return line.now }
{
    match line {
        [text @ .., b'\r'] => text,
        _ => line,
    }
}

// How many blanks stand at the front.
pub(crate) fn blanks_len(s: &[u8]) -> usize
    ensures value { result ≡ prefix_len is_blank s.now }
    ensures within { result ≤ length s.now }
{
    s.iter().take_while(|b| is_blank(**b)).count()
}

// How many bytes at the front go on a name.
pub(crate) fn name_len(s: &[u8]) -> usize
    ensures value { result ≡ prefix_len goes_on_name s.now }
    ensures within { result ≤ length s.now }
{
    s.iter().take_while(|b| goes_on_name(**b)).count()
}

// How many letters and digits stand at the front.
pub(crate) fn alphanumeric_len(s: &[u8]) -> usize
    ensures value { result ≡ prefix_len is_ascii_alphanumeric s.now }
    ensures within { result ≤ length s.now }
{
    s.iter().take_while(|b| b.is_ascii_alphanumeric()).count()
}

// How many letters stand at the front.
pub(crate) fn letters_len(s: &[u8]) -> usize
    ensures value { result ≡ prefix_len is_ascii_alphabetic s.now }
    ensures within { result ≤ length s.now }
{
    s.iter().take_while(|b| b.is_ascii_alphabetic()).count()
}

// How many decimal digits stand at the front.
pub(crate) fn digits_len(s: &[u8]) -> usize
    ensures value { result ≡ prefix_len is_ascii_digit s.now }
    ensures within { result ≤ length s.now }
{
    s.iter().take_while(|b| b.is_ascii_digit()).count()
}

// How many hexadecimal digits stand at the front.
pub(crate) fn hex_digits_len(s: &[u8]) -> usize
    ensures value { result ≡ prefix_len is_ascii_hexdigit s.now }
    ensures within { result ≤ length s.now }
{
    s.iter().take_while(|b| b.is_ascii_hexdigit()).count()
}

// The first n bytes.
#[inline(always)]
pub(crate) fn first_bytes(s: &[u8], n: usize) -> &[u8]
    requires { n ≤ length s.now }
    ensures { result.now ≡ take n s.now }
{
    &s[..n]
}

// The bytes behind the first n.
#[inline(always)]
pub(crate) fn bytes_from(s: &[u8], n: usize) -> &[u8]
    requires { n ≤ length s.now }
    ensures value { result.now ≡ drop n s.now }
    ensures size { length result.now ≡ length s.now - n }
{
    &s[n..]
}
