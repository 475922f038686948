//! Lists of numbers as text.
use script_lines::Part;
use test_streams::Text;

// Numbers that follow each other by one step, up or down.
#[derive(Clone, Copy)]
struct Run {
    first: u64,
    last: u64,
}

// Whether the number goes on with the run, by this step.
fn goes_on(run: Run, next: u64, step: u64) -> bool {
    let up = run.first <= run.last && run.last.checked_add(step) == Some(next);
    let down = run.last <= run.first && next.checked_add(step) == Some(run.last);
    up || down
}

// Puts a run behind what is there: its first number, and the last that is covered, if that is another one.
fn push_run(text: &mut Text, run: Run, step: u64) {
    let end = run.last.saturating_add(step.saturating_sub(1));
    text.push(&[Part::Word(" "), Part::Number(run.first)]);
    if end != run.first {
        text.push(&[Part::Word(" to "), Part::Number(end)]);
    }
}

/// Puts one number behind what is there, which covers this many.
pub fn push_one(text: &mut Text, number: u64, covers: u64) {
    let run = Run {
        first: number,
        last: number,
    };
    push_run(text, run, covers);
}

/// Numbers that are written one after another, those that follow each other by this step as one run; each number
/// covers this many, as a buffer covers its pages.
#[derive(Clone, Copy)]
pub struct Runs {
    step: u64,
    run: Option<Run>,
}

impl Runs {
    /// No number yet.
    pub fn new(step: u64) -> Runs {
        Runs { step, run: None }
    }

    /// Takes the next number, and puts the run that ends before it behind what is there.
    pub fn add(&mut self, text: &mut Text, next: u64) {
        let mut first = next;
        if let Some(run) = self.run {
            if goes_on(run, next, self.step) {
                first = run.first;
            } else {
                push_run(text, run, self.step);
                text.word(",");
            }
        }
        self.run = Some(Run { first, last: next });
    }

    /// Puts the last run behind what is there.
    pub fn end(&self, text: &mut Text) {
        match self.run {
            Some(run) => push_run(text, run, self.step),
            None => text.word(" none"),
        }
    }
}
