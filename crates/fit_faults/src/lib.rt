// The faults of a letter string and of a lent list of slots (document 01, "Refusal table"): how many letters a string stands for, whether bytes are
// letters, and the first test that fails.
#![tactic(auto)]

ghost use Rattle.std.specs.Prelude.{◌≡◌, length};
ghost use Rattle.refusals.specs.Tests.{first_failed};
ghost use Rattle.fit_slots.specs.Fit.{is_letter, are_letters, stands_for, tests_by};

// Whether a byte is L, R, B, A or the dot.
fn is_letter(b: u8) -> bool
    ensures { result ≡ is_letter b }
{
    if b == 76 {
        return true;
    }
    if b == 82 {
        return true;
    }
    if b == 66 {
        return true;
    }
    if b == 65 {
        return true;
    }
    b == 46
}

fn are_letters(letters: &[u8]) -> bool
    ensures { result ≡ are_letters letters.now }
{
    for i in 0..letters.len() {
        if !is_letter(letters[i]) {
            return false;
        }
    }
    true
}

// How many letters a string stands for where there are `count` pairs (document 02, Card 12): the empty string stands for dots.
fn letters_meant(letters: &[u8], count: usize) -> usize
    ensures { result ≡ length (stands_for count letters.now) }
{
    let given = letters.len();
    if given == 0 {
        return count;
    }
    given
}

// The number of the first test that the letters of `count` pairs and a list of `room` slots, where `slots` are needed, fail, or 0.
pub fn fit_fault(letters: &[u8], count: usize, slots: usize, room: usize) -> usize
    ensures { result ≡ first_failed (tests_by count slots (stands_for count letters.now) room) }
{
    if letters_meant(letters, count) != count {
        return 11;
    }
    if !are_letters(letters) {
        return 12;
    }
    if room < slots {
        return 15;
    }
    0
}
