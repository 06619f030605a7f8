// The lines of a report, written into a buffer one behind another.
ghost use Rattle.std.specs.Prelude.{◌≡◌, Some, decimal};
ghost use Rattle.std.specs.Fmt.{signed_decimal};
ghost use Rattle.scales.specs.Wishes.{top, down_from, cost_at};
ghost use Rattle.report.specs.Lines.{bad_file_line, act_line, spaced, marks, sheet_line};
ghost use Rattle.report.specs.Logs.{final_text, answer_text, log_text};

use crate::settling::Cost;
use orders::{Answer, Event, Refusal};
use rulefile::BadFile;
use rulefile::limits::TOP_LEVEL;
use scales::LevelCost;
use sheets::{Sheet, WIDTH, has_mark};

// A buffer, and how many bytes at its front are written. Each text is copied straight into it: there is no second buffer.
// Buffer and length, and no `Vec`: the buffer is lent, and its bytes behind the report stay, by a rule of the project. The
// library's `Write` for slices tells nothing of these.
#[derive(Drop)]
pub(crate) struct Writer<'a> {
    out: &'a mut [u8],
    len: usize,
}

impl<'a> Writer<'a> {
    ghost use Rattle.report.specs.Writing.{Starts, HasRoom, Writes};

    // Nothing is written.
    pub(crate) fn new(out: &'a mut [u8]) -> Writer<'a>
        ensures { Starts out.entry result }
    {
        Writer { out, len: 0 }
    }

    // How many bytes are written.
    pub(crate) fn len(&self) -> usize
        ensures { result ≡ self.now.len }
    {
        self.len
    }

    // The text, behind what is written.
    fn text(&mut self, text: &[u8])
        requires { HasRoom self.old text.now }
        ensures { Writes self.old text.now self.new }
    {
        let end = self.len + text.len();
        self.out[self.len..end].copy_from_slice(text);
        self.len = end;
    }

    // The number in decimal: what its tenth is written as, and its last digit. std's formatter would write the digits
    // into a buffer of its own first.
    fn number(&mut self, n: u32)
        requires { HasRoom self.old (decimal n) }
        ensures { Writes self.old (decimal n) self.new }
    {
        if n >= 10 {
            self.number(n / 10);
        }
        self.text(&[b'0' + (n % 10) as u8]);
    }

    // The number in decimal, with `-` before a negative one.
    fn signed(&mut self, n: i32)
        requires { HasRoom self.old (signed_decimal n) }
        ensures { Writes self.old (signed_decimal n) self.new }
    {
        if n < 0 {
            self.text(b"-");
        }
        self.number(n.unsigned_abs());
    }

    // The marks of the sheet upward, each behind a space.
    fn marks(&mut self, sheet: Sheet)
        requires { HasRoom self.old (spaced decimal (marks sheet)) }
        ensures { Writes self.old (spaced decimal (marks sheet)) self.new }
    {
        for mark in 0..WIDTH {
            if has_mark(sheet, mark) {
                self.text(b" ");
                self.number(u32::from(mark));
            }
        }
    }

    // The costs from the top level down to level 1, each behind a space.
    fn levels(&mut self, cost: LevelCost)
        requires { HasRoom self.old (spaced signed_decimal (down_from top (cost_at cost.levels))) }
        ensures { Writes self.old (spaced signed_decimal (down_from top (cost_at cost.levels))) self.new }
    {
        for level in (1..=TOP_LEVEL).rev() {
            self.text(b" ");
            self.signed(cost.at(level));
        }
    }

    // The line of a settled sheet with its cost.
    #[tactic(auto, unfolding(crate::specs::Lines::sheet_line))]
    fn sheet(&mut self, sheet: Sheet, cost: Cost)
        requires { HasRoom self.old (sheet_line sheet (down_from top (cost_at cost.0.levels)) cost.1) }
        ensures { Writes self.old (sheet_line sheet (down_from top (cost_at cost.0.levels)) cost.1) self.new }
    {
        let (levels, distance) = cost;
        self.text(b"sheet");
        self.marks(sheet);
        self.text(b" cost");
        self.levels(levels);
        self.text(b" off ");
        self.number(distance);
        self.text(b"\n");
    }

    // The settled sheet with its cost, or that there is no sheet.
    #[tactic(auto, unfolding(crate::specs::Lines::no_sheet_line))]
    fn settled(&mut self, answer: Option<(Sheet, Cost)>)
        requires { HasRoom self.old (final_text answer) }
        ensures { Writes self.old (final_text answer) self.new }
    {
        match answer {
            Some((sheet, cost)) => self.sheet(sheet, cost),
            None => self.text(b"no sheet\n"),
        }
    }

    // The line of an act that is refused.
    #[tactic(auto, unfolding(crate::specs::Lines::act_line))]
    fn refusal(&mut self, why: Refusal)
        requires { HasRoom self.old (act_line (Some why)) }
        ensures { Writes self.old (act_line (Some why)) self.new }
    {
        self.text(b"refused ");
        self.number(u32::from(why.number()));
        self.text(b"\n");
    }

    // The line of an answer, if it has one.
    #[tactic(auto, unfolding(crate::specs::Lines::act_line))]
    fn answer(&mut self, answer: Answer<Cost>)
        requires { HasRoom self.old (answer_text answer) }
        ensures { Writes self.old (answer_text answer) self.new }
    {
        match answer {
            Answer::Stands(_) => self.text(b"ok\n"),
            Answer::Refused(why) => self.refusal(why),
            Answer::Moved | Answer::Shown(_) => {}
            Answer::Final(settled) => self.settled(settled),
        }
    }

    // The lines of the answers.
    pub(crate) fn log(&mut self, log: &[Event<Cost>])
        requires { HasRoom self.old (log_text log.now) }
        ensures { Writes self.old (log_text log.now) self.new }
    {
        for event in log {
            self.answer(event.answer);
        }
    }

    // The refusal of a file, and the offset of the record concerned.
    #[tactic(auto, unfolding(crate::specs::Lines::bad_file_line))]
    pub(crate) fn bad_file(&mut self, bad: BadFile)
        requires { HasRoom self.old (bad_file_line bad) }
        ensures { Writes self.old (bad_file_line bad) self.new }
    {
        self.text(b"refused ");
        self.number(u32::from(bad.why.number()));
        self.text(b" at ");
        self.number(bad.at);
        self.text(b"\n");
    }
}
