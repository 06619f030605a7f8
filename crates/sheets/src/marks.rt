// Marks and sheets.
ghost use Rattle.std.specs.Prelude.{◌≡◌, ◌↔◌, ℕ, ◌^◌, ◌<◌, ◌||◌, IsTrue, if◌then◌else◌, ◌==◌, bit_or, nat_lt};
ghost use Rattle.sheets.specs.Sheets.{width, has, first_marks, MarksBelow, within_count};

// One thing that a sheet may have, by its number: a plain number, which files, calls and contracts name as it is.
pub type Mark = u8;

// A set of marks: bit i stands for mark i. A plain word, by a rule of the project.
pub type Sheet = u64;

// How many marks there are.
pub const WIDTH: u8 = 64;

// The sheet has the mark. No sheet has a mark from `WIDTH` upward. Both tests are made always, so that a processor has no
// branch to guess where many marks are looked up.
pub fn has_mark(sheet: Sheet, mark: Mark) -> bool
    ensures { result ≡ has sheet mark }
{
    let bit = (sheet >> (mark % WIDTH)) % 2;
    (mark < WIDTH) & (bit == 1)
}

// The sheet has only marks below the count.
pub fn within_count(sheet: Sheet, count: u8) -> bool
    ensures value { result ≡ within_count count sheet }
    ensures meaning { IsTrue result ↔ MarksBelow count sheet }
{
    count >= WIDTH || sheet >> count == 0
}

// The sheet of the marks below the count; from `WIDTH` upward, of all marks.
pub fn first_marks(count: u8) -> Sheet
    ensures { result ≡ first_marks count }
{
    if count < WIDTH {
        (1 << count) - 1
    } else {
        Sheet::MAX
    }
}

// The sheet with one more mark. A mark from `WIDTH` upward changes nothing.
pub fn with_mark(sheet: Sheet, mark: Mark) -> Sheet
    ensures value { result ≡ (if nat_lt mark width then bit_or sheet (2 ^ mark) else sheet) }
    ensures marks { (i : ℕ) → i < width → has result i ≡ (i == mark || has sheet i) }
{
    if mark < WIDTH {
        sheet | 1 << mark
    } else {
        sheet
    }
}
