// The image of a file, what is done to it, and what is printed of that.

use crate::actions::Action;
use crate::describe::recipe_of;
use crate::failure::Failure;
use crate::image::{Image, Outcome};
use crate::output::Output;
use crate::refusal::Refusal;
use crate::save::save;
use crate::told::Told;
use anyhow::{Context, anyhow, bail, ensure};
use lives::call::{Answer, Call};
use std::fs;

/// The image of a file, which is read once and written back at the end.
#[derive(Drop)]
pub(crate) struct Session<'a> {
    rt: &'a HostRuntime,
    path: &'a str,
    image: Image,
    // Whether there is an image: in its file, or since it was created.
    exists: bool,
    changed: bool,
    // How many calls were refused.
    refused: usize,
}

// Which calls are printed with their answers.
#[derive(Clone, Copy)]
enum Shown {
    All,
    // Of patrols those that found harm or were refused.
    Harmed,
}

impl Shown {
    fn shows(self, answer: Answer) -> bool {
        match self {
            Shown::All => true,
            Shown::Harmed => answer != Ok(0),
        }
    }
}

// How many pages are patrolled between two lines of progress.
const PROGRESS: usize = 4096;

// The bytes of an image's file, if there is one.
fn read_image(rt: &HostRuntime, path: &str) -> anyhow::Result<Option<Vec<u8>>> {
    if !fs::exists(rt, path)? {
        return Ok(None);
    }
    ensure!(fs::metadata(rt, path)?.is_file(), "no regular file");
    Ok(Some(fs::read(rt, path)?))
}

impl<'a> Session<'a> {
    /// The image of a file, or none where there is no such file yet.
    pub(crate) fn open(rt: &'a HostRuntime, path: &'a str, recipe: &str) -> anyhow::Result<Self> {
        let recipe = recipe_of(rt.alloc(), recipe)?;
        let bytes = read_image(rt, path).context(path)?;
        let exists = bytes.is_some();
        let bytes = bytes.unwrap_or(Vec::new(rt.alloc()));
        Ok(Session {
            rt,
            path,
            image: Image::open(rt.alloc(), &recipe, bytes)?,
            exists,
            changed: false,
            refused: 0,
        })
    }
}

impl Session<'_> {
    fn note_refused(&mut self, count: usize) {
        self.refused = self.refused.saturating_add(count);
    }

    // Does calls, and counts those that are refused.
    fn live(&mut self, calls: &[Call<'_>]) -> Result<Outcome, Failure> {
        let outcome = self.image.live(calls)?;
        let refused = outcome.answers.iter().filter(|answer| answer.is_err());
        self.note_refused(refused.count());
        Ok(outcome)
    }

    // Does calls and prints each that is shown with its answer.
    fn tell(&mut self, calls: &[Call<'_>], shown: Shown) -> anyhow::Result<()> {
        let rt = self.rt;
        let outcome = self.live(calls)?;
        let parts = outcome.payloads.chunks(self.image.payload().max(1));
        for ((call, answer), payload) in calls.iter().zip(&outcome.answers).zip(parts) {
            if shown.shows(*answer) {
                let told = Told {
                    call: *call,
                    answer: *answer,
                    payload,
                };
                println!(rt; "{told}")?;
            }
        }
        Ok(())
    }

    fn create(&mut self, pages: usize, replace: bool) -> anyhow::Result<()> {
        if self.exists && !replace {
            return Err(anyhow!("is there already; --replace begins it anew").context(self.path));
        }
        self.image.renew(pages).context(self.path)?;
        self.exists = true;
        println!(self.rt; "create {pages} pages")?;
        Ok(())
    }

    // Writes the bytes of a file, a page behind the other; what is left of the last page is 0. Where they do not fit, none is written.
    fn write_file(&mut self, page: usize, file: &str) -> anyhow::Result<()> {
        let rt = self.rt;
        let mut bytes = fs::read(rt, file).context(file)?;
        let size = self.image.payload().max(1);
        let count = bytes.len().div_ceil(size);
        if let Err(fault) = self.image.check_pages(page, count) {
            self.note_refused(1);
            let refusal = Refusal(fault);
            println!(rt;
                "write: {refusal}; the file takes {count} from page {page} on, and nothing is written"
            )?;
            return Ok(());
        }
        bytes.resize(count.saturating_mul(size), 0)?;
        let payloads = bytes.as_slice().chunks(size).enumerate();
        let calls: Vec<Call<'_>> = payloads
            .map(|(i, payload)| Call::Write {
                page: page.saturating_add(i),
                payload,
            })
            .collect(rt.alloc())?;
        self.tell(calls.as_slice(), Shown::All)
    }

    fn read_pages(&mut self, page: usize, count: usize, output: Output<'_>) -> anyhow::Result<()> {
        if output.replaces(self.rt, self.path).context(output)? {
            return Err(anyhow!("the bytes read would take the image's place").context(self.path));
        }
        if let Err(fault) = self.image.check_pages(page, count) {
            self.note_refused(1);
            let refusal = Refusal(fault);
            output.note(self.rt, format_args!("read: {refusal}"))?;
            return Ok(());
        }
        let calls: Vec<Call<'_>> = (0..count)
            .map(|i| Call::Read {
                page: page.saturating_add(i),
            })
            .collect(self.rt.alloc())?;
        match output {
            Output::Told => self.tell(calls.as_slice(), Shown::All),
            _ => self.copy_out(calls.as_slice(), output),
        }
    }

    // The bytes of the pages that reads give; those that are refused are told beside them.
    fn copy_out(&mut self, calls: &[Call<'_>], output: Output<'_>) -> anyhow::Result<()> {
        let rt = self.rt;
        let outcome = self.live(calls)?;
        let mut bytes = Vec::new(rt.alloc());
        let mut pages = 0usize;
        let parts = outcome.payloads.chunks(self.image.payload().max(1));
        for (answer, payload) in outcome.answers.iter().zip(parts) {
            match answer {
                Ok(_) => {
                    bytes.extend_from_slice(payload)?;
                    pages = pages.saturating_add(1);
                }
                Err(fault) => {
                    let refusal = Refusal(*fault);
                    output.note(rt, format_args!("read: {refusal}"))?;
                }
            }
        }
        output.put(rt, bytes.as_slice()).context(output)?;
        let len = bytes.len();
        output.note(
            rt,
            format_args!("{len} bytes of {pages} pages written to {output}"),
        )?;
        Ok(())
    }

    fn patrol_all(&mut self) -> anyhow::Result<()> {
        let rt = self.rt;
        let pages = self.image.pages();
        for start in (0..pages).step_by(PROGRESS) {
            let end = pages.min(start.saturating_add(PROGRESS));
            let calls: Vec<Call<'_>> = (start..end)
                .map(|page| Call::Patrol { page })
                .collect(rt.alloc())?;
            self.tell(calls.as_slice(), Shown::Harmed)?;
            println!(rt; "patrolled {end} of {pages} pages")?;
        }
        Ok(())
    }

    // Refuses to go on without an image that calls take.
    fn check(&mut self) -> anyhow::Result<()> {
        if !self.exists {
            bail!("No such file or directory; create makes an image");
        }
        Ok(self.image.check()?)
    }

    fn inspect(&mut self, page: usize) -> anyhow::Result<()> {
        let rt = self.rt;
        if let Err(fault) = self.image.check_pages(page, 1) {
            self.note_refused(1);
            let refusal = Refusal(fault);
            println!(rt; "inspect: {refusal}")?;
            return Ok(());
        }
        let inspection = self.image.inspect(page)?;
        self.note_refused(usize::from(inspection.answer.is_err()));
        rt.print(inspection)?;
        Ok(())
    }

    // Does an action and prints its answer or its refusal.
    fn act(&mut self, action: Action<'_>) -> anyhow::Result<()> {
        if let Action::Create { pages, replace } = action {
            return self.create(pages, replace);
        }
        self.check().context(self.path)?;
        match action {
            Action::Create { .. } => Ok(()),
            Action::Write { page, file } => self.write_file(page, file),
            Action::Read {
                page,
                count,
                output,
            } => self.read_pages(page, count, output),
            Action::PatrolAll => self.patrol_all(),
            Action::Call(call) => self.tell(&[call], Shown::All),
            Action::Inspect { page } => self.inspect(page),
        }
    }

    fn save(&self) -> anyhow::Result<()> {
        save(self.rt, self.path, self.image.bytes()).context(self.path)
    }

    /// Does one action, writes the file if it changes, and gives how many calls were refused.
    pub(crate) fn run_action(mut self, action: Action<'_>) -> anyhow::Result<usize> {
        self.act(action)?;
        if action.changes() {
            self.save()?;
        }
        Ok(self.refused)
    }

    // Does the action of a script's line.
    fn act_line(&mut self, line: &str) -> anyhow::Result<()> {
        let words: Vec<&str> = line.split_whitespace().collect(self.rt.alloc())?;
        let Some((name, rest)) = words.as_slice().split_first() else {
            return Ok(());
        };
        let action = Action::parse(name, rest).map_err(|misuse| anyhow!("{misuse}"))?;
        self.changed = self.changed || action.changes();
        self.act(action)
    }

    /// Does the actions of a script, one to a line, and gives how many calls were refused; a line that is empty or begins with # is
    /// passed over.
    pub(crate) fn run_script(mut self, name: &str) -> anyhow::Result<usize> {
        let script = fs::read_to_string(self.rt, name).context(name)?;
        for (i, line) in script.as_str().lines().enumerate() {
            let number = i.saturating_add(1);
            if !line.starts_with("#") {
                self.act_line(line)
                    .context(format_args!("{name}:{number}"))?;
            }
        }
        if self.changed {
            self.save()?;
        }
        println!(self.rt; "{} refused", self.refused)?;
        Ok(self.refused)
    }
}
