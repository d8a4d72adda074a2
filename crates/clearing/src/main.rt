//! The program: carries out a script, line by line, and prints what each line did.
//!
//! The script is read from the file that an argument names, or from standard input. With the word `explain` among the
//! arguments each answer is followed by what it means. Lines that make no sense are reported and passed over; the
//! program then ends with an error status.
#![tactic(auto)]

mod answers;
mod assigning;
mod book_answers;
mod commands;
mod faults;
mod hex;
mod lines;
mod making;
mod names;
mod reading;
mod session;
mod shown;
mod words;

ghost use Rattle.std.specs.Prelude.{◌≡◌, ◌+◌, ◌≤◌, length, IfSome, IfOk};
ghost use Rattle.std.specs.Option.{option_to_list};
ghost use Rattle.clearing.specs.Lines.{NothingDone};

use crate::answers::{Answers, Style};
use crate::book_answers::{answer_question, save_image};
use crate::commands::Command;
use crate::faults::{LineFault, ScriptError};
use crate::lines::Lines;
use crate::making::{Memory, make, mount};
use crate::reading::show_read;
use crate::session::Session;
use anyhow::anyhow;
use books::book::CaseBook;
use image::book::ImageBook;
use rows::RowsBook;
use std::io::Read;
use std::{env, fs};

/// What the arguments ask for.
#[derive(Drop)]
struct Arguments {
    style: Style,
    script: Option<String>,
}

/// What ends the program with an error: it is printed as `Error:` and the message in quotes.
fn failure(message: &'static str) -> anyhow::Error {
    anyhow!("{message:?}")
}

fn read_arguments(rt: &HostRuntime) -> anyhow::Result<Arguments> {
    let mut style = Style::Terse;
    let mut script = None;
    for word in env::args(rt)?.skip(1) {
        match word.as_str() {
            "explain" => style = Style::Explained,
            _ if script.is_none() => script = Some(word),
            _ => return Err(failure("expected one script at most: clearing [explain] [SCRIPT]")),
        }
    }
    Ok(Arguments { style, script })
}

fn input(rt: &HostRuntime, script: Option<String>) -> anyhow::Result<Vec<u8>> {
    match script {
        Some(path) => Ok(fs::read(rt, path.as_str())?),
        None => {
            let mut bytes = Vec::new(rt.alloc());
            rt.stdin().read_to_end(&mut bytes)?;
            Ok(bytes)
        }
    }
}

/// A script that is being carried out.
#[derive(Drop)]
struct Script<'a> {
    rt: &'a HostRuntime,
    lines: Lines<'a>,
    session: Session,
    out: Answers,
}

impl<'a> Script<'a> {
    fn new(rt: &'a HostRuntime, script: &'a [u8], style: Style) -> Script<'a> {
        Script {
            rt,
            lines: Lines::of(script),
            session: Session::new(rt.alloc()),
            out: Answers::new(rt.alloc(), style),
        }
    }

    /// Carries out one line, and adds what it answers; the memory of the book that it made, if it made one. Of a line that
    /// makes no sense nothing is done.
    fn carry_out<B: CaseBook>(
        &mut self,
        book: &mut Option<B>,
        line: &[u8],
    ) -> Result<Option<Memory>, ScriptError>
        requires { IfSome book.old B.sound }
        ensures sound { IfSome book.new B.sound }
        ensures session { NothingDone result self.old.session self.new.session }
        ensures book { NothingDone result book.old book.new }
        ensures out { NothingDone result self.old.out self.new.out }
        ensures lines { self.new.lines ≡ self.old.lines }
    {
        let heap = self.rt.alloc();
        let Some(command) = Command::read(heap, line)? else {
            return Ok(None);
        };
        match command {
            Command::Block(fields) => self.session.add_block(&fields, &mut self.out)?,
            Command::Write => self.session.write(&mut self.out)?,
            Command::Read(None) => self.session.read(&mut self.out)?,
            Command::Read(Some(bytes)) => show_read(&mut self.out, &bytes)?,
            Command::Spoil(byte) => self.session.spoil(byte, &mut self.out)?,
            Command::Clear => self.session.clear(&mut self.out)?,
            Command::New(book) => return Ok(make(heap, book, &mut self.out)?),
            Command::Mount(path) => return mount(self.rt, path, &mut self.out),
            Command::Save(path) => {
                let book = book.as_ref().ok_or(LineFault::NoBook)?;
                save_image(self.rt, path, book, &mut self.out)?;
            }
            Command::Ask(question) => {
                let book = book.as_mut().ok_or(LineFault::NoBook)?;
                answer_question(book, question, &mut self.out)?;
            }
        }
        Ok(None)
    }

    /// Carries out the lines up to the next that makes a book, and prints what they answer.
    fn lines_with<B: CaseBook + Drop>(
        &mut self,
        mut book: Option<B>,
    ) -> anyhow::Result<Option<Memory>>
        requires { IfSome book B.sound }
        ensures { IfOk result (λ made. length self.new.lines.rest.now + length (option_to_list made) ≤ length self.old.lines.rest.now) }
    {
        while let Some(line) = self.lines.next() {
            match self.carry_out(&mut book, line) {
                Ok(made) => {
                    self.rt.print(self.out.text())?;
                    self.out.clear();
                    if made.is_some() {
                        return Ok(made);
                    }
                }
                Err(ScriptError::Line(fault)) => {
                    let number = self.lines.number;
                    eprintln!(self.rt; "line {number}: {fault}")?;
                    self.lines.count_fault();
                }
                Err(ScriptError::Memory) => return Err(failure("out of memory")),
            }
        }
        Ok(None)
    }

    /// Carries out the lines with the book in this memory.
    fn lines_over(&mut self, memory: Memory) -> anyhow::Result<Option<Memory>>
        ensures { IfOk result (λ made. length self.new.lines.rest.now + length (option_to_list made) ≤ length self.old.lines.rest.now) }
    {
        match memory {
            Memory::Rows(mut rows) => {
                let book = RowsBook::over(rows.as_mut_slice()).ok();
                self.lines_with(book)
            }
            Memory::Image(mut bytes) => {
                let book = ImageBook::mount(bytes.as_mut_slice()).ok();
                self.lines_with(book)
            }
        }
    }

    /// Carries out every line.
    fn every_line(&mut self) -> anyhow::Result<()> {
        let mut made = self.lines_with(None::<RowsBook>)?;
        while let Some(memory) = made {
            made = self.lines_over(memory)?;
        }
        Ok(())
    }
}

fn run(rt: &HostRuntime) -> anyhow::Result<()> {
    let Arguments { style, script } = read_arguments(rt)?;
    let text = input(rt, script)?;
    let mut script = Script::new(rt, &text, style);
    script.every_line()?;
    if script.lines.faults > 0 {
        return Err(failure("lines that made no sense were passed over"));
    }
    Ok(())
}

fn main(rt: HostRuntime) -> anyhow::Result<()> {
    run(&rt)
}
