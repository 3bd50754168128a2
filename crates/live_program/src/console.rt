//! Lines that are typed, and answers that are printed.

ghost use Rattle.std.specs.Prelude.{◌≡◌, ◌⊎◌, ◌<◌, ◌+◌, ◌++◌, ◌∷◌, [], ℕ, List, Option, true, false, length, map, OnErr, OnOk};
ghost use Rattle.std.specs.Io.KnownBytes.{Appends};
ghost use Rattle.live_day.specs.Shows.{shown_now};
ghost use Rattle.live_day.specs.Waiting.{all_shown_after, ShowsFront};
ghost use Rattle.live_program.specs.declared.reading.Origin.TheVariants.{Pipe, Terminal};
ghost use Rattle.live_program.specs.Consoles.{shown_of_numbers, shown_text, shown_texts, HasPrinted};

use crate::number_lists::{NumberLists, Numbered};
use crate::printing::print_line;
use crate::prompt::Prompt;
use crate::reading::{Origin, read_line};
use arrayvec::ArrayVec;
use disk_in_place::DiskInPlace;
use live_day::{Day, Keyboard, Screen, ScreenFault, Typed, TypingFault, WaitingAnswer};
use station_lines::LF;
use std::alloc::Global;
use std::io;
use std::io::{BufRead, Write};
use std::marker::Model;

// How many bytes of answers, with their LFs, are printed by one write where they come together.
const PAGE_BYTES: usize = 8_192;

impl Numbered for Typed {
    ghost use Rattle.live_program.specs.Consoles.{numbers_of_typed};

    ghost numbered = { numbers_of_typed };
}

/// The lines of a reader, and a prompt before each where there is a writer for it. At a terminal this writer is told, too, what a person
/// there wants to know between the lines.
#[derive(Drop)]
pub struct TypedLines<R: BufRead + Drop, P: Write + Drop> {
    origin: Origin,
    reader: R,
    prompt: Option<Prompt<P>>,
    // Whether a further whole line is in the reader's buffer.
    has_more: bool,
    // What was typed, whether it has ended, and whether a line could not be read, for contracts.
    typed: NumberLists,
    ended: bool,
    failed: bool,
}

impl<R: BufRead + Drop, P: Write + Drop> Model for TypedLines<R, P> {
    ghost use Rattle.std.specs.Prelude.{map};
    ghost use Rattle.live_program.specs.Consoles.{typed_of_numbers, TypedValue as What};

    ghost Value = { What R };

    ghost view = { λ k. record { origin = k.origin; reader = k.reader; typed = map typed_of_numbers k.typed; ended = k.ended; failed = k.failed } };
}

// What is told by a writer between the lines, where there is one.
fn prompt_on<P: Write + Drop>(out: Option<P>) -> Option<Prompt<P>> {
    match out {
        Some(out) => Some(Prompt::new(out)),
        None => None,
    }
}

impl<R: BufRead + Drop, P: Write + Drop> TypedLines<R, P> {
    /// The lines of a pipe or a file from here on. A last one without LF was cut.
    pub fn new(reader: R, prompt: Option<P>) -> TypedLines<R, P>
        ensures origin { result.origin ≡ Pipe }
        ensures reader { result.reader ≡ reader }
        ensures untyped { result.typed ≡ [] }
        ensures open { result.ended ≡ false }
        ensures unfailed { result.failed ≡ false }
    {
        TypedLines::of(Origin::Pipe, reader, prompt)
    }

    /// The lines of a terminal from here on. Who types there may end the input after a line, which is one without LF too.
    pub fn at_terminal(reader: R, prompt: Option<P>) -> TypedLines<R, P>
        ensures origin { result.origin ≡ Terminal }
        ensures reader { result.reader ≡ reader }
        ensures untyped { result.typed ≡ [] }
        ensures open { result.ended ≡ false }
        ensures unfailed { result.failed ≡ false }
    {
        TypedLines::of(Origin::Terminal, reader, prompt)
    }

    // Lines of which none was read.
    fn of(origin: Origin, reader: R, prompt: Option<P>) -> TypedLines<R, P>
        ensures origin { result.origin ≡ origin }
        ensures reader { result.reader ≡ reader }
        ensures untyped { result.typed ≡ [] }
        ensures open { result.ended ≡ false }
        ensures unfailed { result.failed ≡ false }
    {
        TypedLines {
            origin,
            reader,
            prompt: prompt_on(prompt),
            has_more: false,
            typed: NumberLists::empty(),
            ended: false,
            failed: false,
        }
    }

    // Prints the prompt of a station. A writer that takes no text changes nothing.
    fn ask(&mut self, station: u32)
        ensures same { self.new ≡ self.old }
    {
        if let Some(prompt) = &mut self.prompt {
            prompt.ask(station);
        }
    }

    // What a typed line is to the day: from a pipe or a file the line itself. At a terminal HELP is answered there.
    fn heard(&mut self, alloc: Global, typed: Typed) -> Typed
        ensures piped { self.old.origin ≡ Pipe → result ≡ typed }
        ensures same { self.new ≡ self.old }
    {
        match self.origin {
            Origin::Pipe => typed,
            Origin::Terminal => match &mut self.prompt {
                Some(prompt) => prompt.hear(alloc, typed),
                None => typed,
            },
        }
    }
}

impl<R: BufRead + Drop, P: Write + Drop> Keyboard for TypedLines<R, P> {
    ghost use Rattle.std.specs.Prelude.{◌≡◌, true};
    ghost use Rattle.live_program.specs.Consoles.{known_text};

    ghost typed = { λ k. k.typed };

    ghost has_ended = { λ k. k.ended ≡ true };

    ghost has_failed = { λ k. k.failed ≡ true };

    ghost text_left = { λ k. known_text k.origin (R.remaining k.reader) };

    #[tactic(auto, using(crate::proofs::ConsoleLaws::typed_more, crate::proofs::ConsoleLaws::heard_next))]
    fn next_line(&mut self, alloc: Global, station: u32) -> Result<Option<Typed>, TypingFault> {
        self.ask(station);
        match read_line(alloc, &mut self.reader, self.origin, &mut self.has_more) {
            Ok(Some(typed)) => {
                let typed = self.heard(alloc, typed);
                self.typed.push(&typed);
                Ok(Some(typed))
            }
            Ok(None) => {
                self.ended = true;
                Ok(None)
            }
            Err(TypingFault::Failed) => {
                self.failed = true;
                Err(TypingFault::Failed)
            }
            Err(TypingFault::NoMemory) => Err(TypingFault::NoMemory),
        }
    }

    // Where there is a prompt each line is answered at once.
    fn has_line(&self) -> bool {
        self.prompt.is_none() && self.has_more
    }
}

/// What is shown of a day, for contracts.
#[derive(Drop)]
pub struct Showing<'a, D: DiskInPlace + Drop> {
    /// The day.
    pub day: &'a Day<D>,
    /// The station.
    pub station: u32,
    /// The line.
    pub line: &'a [u8],
}

impl<'a, D: DiskInPlace + Drop> Numbered for Showing<'a, D> {
    ghost use Rattle.live_day.specs.Shows.{shown_now};
    ghost use Rattle.live_program.specs.Consoles.{numbers_of_shown};

    ghost numbered = { λ s. numbers_of_shown (shown_now D.meaning s.day.now s.station s.line.now) };
}

/// An answer that waited, as it is shown of a day, for contracts.
#[derive(Drop)]
pub struct ShowingAfter<'a, D: DiskInPlace + Drop> {
    /// The day.
    pub day: &'a Day<D>,
    /// The answer.
    pub answer: &'a WaitingAnswer,
}

impl<'a, D: DiskInPlace + Drop> Numbered for ShowingAfter<'a, D> {
    ghost use Rattle.live_day.specs.Waiting.{shown_after};
    ghost use Rattle.live_program.specs.Consoles.{numbers_of_shown};

    ghost numbered = { λ s. numbers_of_shown (shown_after D.meaning s.day.now s.answer.now) };
}

/// Answers that are printed, each as a line of an answer file.
#[derive(Drop)]
pub struct PrintedAnswers<W: Write + Drop> {
    out: W,
    // What was shown, and whether a line may not be, for contracts.
    shown: NumberLists,
    failed: bool,
}

impl<W: Write + Drop> Model for PrintedAnswers<W> {
    ghost use Rattle.std.specs.Prelude.{map};
    ghost use Rattle.live_program.specs.Consoles.{shown_of_numbers, PrintedValue as What};

    ghost Value = { What W };

    ghost view = { λ s. record { out = s.out; shown = map shown_of_numbers s.shown; failed = s.failed } };
}

impl<W: Write + Drop> PrintedAnswers<W> {
    /// For a writer: nothing is shown yet.
    pub fn new(out: W) -> PrintedAnswers<W>
        ensures out { result.out ≡ out }
        ensures unshown { result.shown ≡ [] }
        ensures unfailed { result.failed ≡ false }
    {
        PrintedAnswers {
            out,
            shown: NumberLists::empty(),
            failed: false,
        }
    }
}

// Answers that waited are shown, for contracts.
fn note_all<D: DiskInPlace + Drop>(shown: &mut NumberLists, day: &Day<D>, answers: &[WaitingAnswer])
    ensures all { map shown_of_numbers shown.new ≡ map shown_of_numbers shown.old ++ all_shown_after D.meaning day.now answers.now }
{
    for answer in answers {
        shown.push(&ShowingAfter { day, answer });
    }
}

// What of answers waits to be printed by one write.
type Page = ArrayVec<u8, PAGE_BYTES>;

// Prints what waits.
fn print_page<W: Write>(out: &mut W, page: &mut Page) -> io::Result<()>
    ensures text { OnOk result (Appends (W.contents out.old) (W.contents out.new) page.old.items) }
    ensures none { OnOk result (page.new.items ≡ []) }
{
    out.write_all(page.as_slice())?;
    page.clear();
    Ok(())
}

// Lets bytes wait after those that wait already, and prints what has no room.
fn gather<W: Write>(out: &mut W, page: &mut Page, bytes: &[u8]) -> io::Result<()>
    ensures text { (start : Option (List ℕ)) (text : List ℕ) → HasPrinted start (W.contents out.old) page.old.items text
        → OnOk result (HasPrinted start (W.contents out.new) page.new.items (text ++ bytes.now)) }
{
    if let Ok(()) = page.try_extend_from_slice(bytes) {
        return Ok(());
    }
    print_page(out, page)?;
    if let Ok(()) = page.try_extend_from_slice(bytes) {
        return Ok(());
    }
    out.write_all(bytes)
}

// Lets a line and LF wait.
fn gather_line<W: Write>(out: &mut W, page: &mut Page, line: &[u8]) -> io::Result<()>
    ensures text { (start : Option (List ℕ)) (text : List ℕ) → HasPrinted start (W.contents out.old) page.old.items text
        → OnOk result (HasPrinted start (W.contents out.new) page.new.items (text ++ shown_text line.now)) }
{
    gather(out, page, line)?;
    gather(out, page, &[LF])
}

// Prints the lines of answers, by as few writes as they take.
fn print_all<W: Write>(out: &mut W, answers: &[WaitingAnswer]) -> io::Result<()>
    ensures text { OnOk result (Appends (W.contents out.old) (W.contents out.new) (shown_texts answers.now)) }
{
    let mut page = Page::new();
    for answer in answers {
        gather_line(out, &mut page, answer.line.as_slice())?;
    }
    print_page(out, &mut page)
}

impl<D: DiskInPlace + Drop, W: Write + Drop> Screen<D> for PrintedAnswers<W> {
    ghost use Rattle.std.specs.Prelude.{◌≡◌, true};

    ghost shown = { λ s. s.shown };

    ghost has_failed = { λ s. s.failed ≡ true };

    #[tactic(auto, using(crate::proofs::ConsoleLaws::shown_more))]
    fn show(&mut self, day: &Day<D>, station: u32, line: &[u8]) -> Result<(), ScreenFault>
        ensures shown { OnOk result (self.new.shown ≡ self.old.shown ++ shown_now D.meaning day.now station line.now ∷ []) }
        ensures unshown { OnErr result ((self.new.shown ≡ self.old.shown)
            ⊎ (self.new.shown ≡ self.old.shown ++ shown_now D.meaning day.now station line.now ∷ [])) }
        ensures failed { OnErr result (self.new.failed ≡ true) }
        // The writer has taken the line and its LF.
        ensures printed { OnOk result (Appends (W.contents self.old.out) (W.contents self.new.out) (shown_text line.now)) }
    {
        let printed = print_line(&mut self.out, line);
        self.shown.push(&Showing { day, station, line });
        match printed {
            Ok(()) => Ok(()),
            Err(_) => {
                self.failed = true;
                Err(ScreenFault)
            }
        }
    }

    #[tactic(auto, using(crate::proofs::ConsoleLaws::front_of_all))]
    fn show_all(&mut self, day: &Day<D>, answers: &[WaitingAnswer]) -> Result<(), ScreenFault>
        ensures shown { OnOk result (self.new.shown ≡ self.old.shown ++ all_shown_after D.meaning day.now answers.now) }
        ensures unshown { OnErr result (ShowsFront self.old.shown self.new.shown (all_shown_after D.meaning day.now answers.now)) }
        ensures failed { OnErr result (self.new.failed ≡ true) }
        // The writer has taken the lines, each with its LF.
        ensures printed { OnOk result (Appends (W.contents self.old.out) (W.contents self.new.out) (shown_texts answers.now)) }
    {
        let printed = print_all(&mut self.out, answers);
        note_all(&mut self.shown, day, answers);
        match printed {
            Ok(()) => Ok(()),
            Err(_) => {
                self.failed = true;
                Err(ScreenFault)
            }
        }
    }
}
