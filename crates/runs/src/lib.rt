// A list of calls run on an intake newly set up, with the whole law over histories on its contract.
#![tactic(auto)]

ghost use Rattle.std.specs.Prelude.{◌≡◌, ◌+◌, ◌<◌, ◌≤◌, [], ◌++◌, map, length, Ok, Err, vec_len, vec_capacity};
ghost use Rattle.intake_core.specs.Worlds.{noticed, serial_of, world_of};
ghost use Rattle.runs.specs.Log.{Account, Made, Played, Stopped, desk_after, listed};

use intake_core::{BadSetting, Intake, Notice, Reply};
use session::Settings;
use std::alloc::Global;
use store::Store;

mod calls;

pub use calls::{Call, Halted, Line, Ran};

// Puts a notice on the desk, if there is one, and gives its serial.
fn file(desk: &mut Vec<Notice>, notice: Option<Notice>) -> Option<u64>
    requires { vec_len desk.old < vec_capacity desk.old }
    ensures serial { listed result ≡ noticed notice }
    ensures desk { map serial_of desk.new.items ≡ map serial_of desk.old.items ++ listed result }
    ensures len { vec_len desk.new ≤ vec_len desk.old + 1 }
    ensures capacity { vec_capacity desk.new ≡ vec_capacity desk.old }
{
    let notice = notice?;
    let serial = notice.serial();
    desk.push_reserved(notice);
    Some(serial)
}

impl<S: Store> Ran<S> {
    // Makes one call.
    fn make(&mut self, call: &Call<'_>, page: &mut [u8]) -> Line
        requires { vec_len self.old.desk < vec_capacity self.old.desk }
        ensures made { Made self.old.intake.settings (world_of S.Store.meaning self.old.intake) (map serial_of self.old.desk.items) call.now page.old result page.new (world_of S.Store.meaning self.new.intake) }
        ensures desk { map serial_of self.new.desk.items ≡ desk_after (map serial_of self.old.desk.items) call.now result }
        ensures len { vec_len self.new.desk ≤ vec_len self.old.desk + 1 }
        ensures capacity { vec_capacity self.new.desk ≡ vec_capacity self.old.desk }
        ensures settings { self.new.intake.settings ≡ self.old.intake.settings }
        ensures lines { self.new.lines ≡ self.old.lines }
    {
        let size = page.len();
        match *call {
            Call::Message { input, .. } => {
                let Reply {
                    outcome,
                    used,
                    length,
                    notice,
                } = self.intake.message(input, page);
                Line::Message {
                    page: size,
                    outcome,
                    used,
                    length,
                    notice: file(&mut self.desk, notice),
                }
            }
            Call::Answer { at, verdict, .. } => {
                if at >= self.desk.len() {
                    return Line::Skipped;
                }
                let notice = self.desk.remove(at);
                let serial = notice.serial();
                let Reply {
                    outcome,
                    used: _,
                    length,
                    notice,
                } = self.intake.answer(notice, verdict, page);
                Line::Answer {
                    page: size,
                    serial,
                    outcome,
                    length,
                    notice: file(&mut self.desk, notice),
                }
            }
            Call::Tick { reading } => Line::Tick {
                ended: self.intake.tick(reading),
            },
        }
    }

    // Makes the calls one after another.
    fn play(&mut self, calls: &[Call<'_>], pages: &mut [u8])
        requires empty { (self.old.desk.items ≡ []) × (vec_len self.old.desk ≡ 0) × (self.old.lines.items ≡ []) × (vec_len self.old.lines ≡ 0) }
        requires room { (length calls.now ≤ vec_capacity self.old.desk) × (length calls.now ≤ vec_capacity self.old.lines) }
        ensures played { Played self.old.intake.settings (world_of S.Store.meaning self.old.intake) calls.now pages.old self.new.lines.items (map serial_of self.new.desk.items) pages.new (world_of S.Store.meaning self.new.intake) }
        ensures settings { self.new.intake.settings ≡ self.old.intake.settings }
    {
        // how far the pages are written: what is left is lent anew to each call
        let mut at: usize = 0;
        for call in calls {
            let size = call.page().min(pages.len() - at);
            let line = self.make(call, &mut pages[at..at + size]);
            at += line.length();
            self.lines.push_reserved(line);
        }
    }
}

// Runs a list of calls on an intake newly set up over a store. The pages are lent for the acknowledgements, which stand at
// their front in order. Without memory for the desk and the lines, or with a broken setting, nothing is run.
pub fn run<S: Store>(
    heap: Global,
    store: S,
    settings: Settings,
    calls: &[Call<'_>],
    pages: &mut [u8],
) -> Result<Ran<S>, Halted<S>>
    ensures account { elim result [ Ok x ↦ Account settings (S.Store.meaning store).catalog calls.now pages.old x.lines.items (map serial_of x.desk.items) pages.new (world_of S.Store.meaning x.intake) | Err h ↦ Stopped settings store h × (pages.new ≡ pages.old) ] }
    ensures settings { elim result [ Ok x ↦ x.intake.settings ≡ settings | Err h ↦ Unit {0} ] }
{
    let Ok(desk) = Vec::with_capacity(heap, calls.len()) else {
        return Err(Halted::NoMemory(store));
    };
    let Ok(lines) = Vec::with_capacity(heap, calls.len()) else {
        desk.destroy_empty();
        return Err(Halted::NoMemory(store));
    };
    // a desk cannot be let go, so both arms say what becomes of it
    match Intake::new(store, settings) {
        Ok(intake) => {
            let mut ran = Ran {
                intake,
                desk,
                lines,
            };
            ran.play(calls, pages);
            Ok(ran)
        }
        Err(BadSetting { store, outcome: _ }) => {
            desk.destroy_empty();
            Err(Halted::BadSetting(store))
        }
    }
}
