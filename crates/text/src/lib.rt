// Lines of numbers as text, in ASCII, written onto a page, after what stands there: what `replay` prints.
#![tactic(auto)]

ghost use Rattle.std.specs.Prelude.{◌≡◌, ◌+◌, ◌≤◌, ◌<◌, length};
ghost use Rattle.text.specs.Digits.{digit, digits};
ghost use Rattle.text.specs.Lines.{number_then, end_before, line_of};
ghost use Rattle.text.specs.Pages.{Written};

// The octets between the numbers of a line, and at its end.
const SPACE: u8 = b' ';

const LINE_FEED: u8 = b'\n';

// A page: lent octets, and the index at which the text on them ends. It stays no String: the host lends the octets, and nothing is allocated.
#[derive(Drop)]
pub struct Page<'a> {
    pub octets: &'a mut [u8],
    pub end: usize,
}

// The octet of a digit.
fn octet(number: u32) -> u8
    requires { number < 10 }
    ensures { result ≡ digit number }
{
    b'0' + number as u8
}

// How many digits the number has.
#[tactic(auto, using(crate::proofs::DigitLaws::length_power, crate::proofs::DigitLaws::length_one))]
fn places(number: u32) -> usize
    ensures { result ≡ length (digits number) }
{
    number
        .checked_ilog10()
        .map_or(1, |power| power as usize + 1)
}

// The octet that ends a number after which so many numbers of the line come.
fn end_before(more: usize) -> u8
    ensures { result ≡ end_before more }
{
    if more == 0 { LINE_FEED } else { SPACE }
}

impl Page<'_> {
    // Writes the number's digits, the last one first. It is no `Display`: that writes into a writer that may fail, and a page has room.
    #[tactic(auto, using(crate::proofs::PageLaws::digit_steps))]
    fn put_digits(&mut self, number: u32)
        requires { self.old.end + length (digits number) ≤ length self.old.octets.now }
        ensures { Written self.old (digits number) self.new }
    {
        let first = self.end;
        let end = first + places(number);
        let mut rest = number;
        for place in (first + 1..end).rev() {
            self.octets[place] = octet(rest % 10);
            rest /= 10;
        }
        self.octets[first] = octet(rest);
        self.end = end;
    }

    // Writes the number and the octet that ends it.
    #[tactic(auto, using(crate::proofs::PageLaws::number_steps), unfolding(crate::specs::Lines::number_then))]
    fn put_number(&mut self, number: u32, end: u8)
        requires { self.old.end + length (number_then number end) ≤ length self.old.octets.now }
        ensures { Written self.old (number_then number end) self.new }
    {
        self.put_digits(number);
        self.octets[self.end] = end;
        self.end += 1;
    }

    // Writes the line of the numbers.
    #[tactic(auto, using(crate::proofs::PageLaws::line_steps))]
    pub fn put_line(&mut self, numbers: &[u32])
        requires { self.old.end + length (line_of numbers.now) ≤ length self.old.octets.now }
        ensures { Written self.old (line_of numbers.now) self.new }
    {
        for (i, number) in numbers.iter().enumerate() {
            self.put_number(*number, end_before(numbers.len() - i - 1));
        }
    }

    // Writes the octets.
    #[tactic(auto, using(crate::proofs::PageLaws::put_mid_whole))]
    pub fn put_octets(&mut self, octets: &[u8])
        requires { self.old.end + length octets.now ≤ length self.old.octets.now }
        ensures { Written self.old octets.now self.new }
    {
        let end = self.end + octets.len();
        self.octets[self.end..end].copy_from_slice(octets);
        self.end = end;
    }
}
