// The cases: each story is told to a new intake over a new store.
use crate::requests::{PATH, Part, close, create, fragment, ping};
use crate::shown::{show, show_lines};
use ack::LEAST_PAGE;
use anyhow::anyhow;
use desk::{Settled, settle};
use intake_core::{BadSetting, Intake, Notice, Reply, Verdict};
use page_store::PageStore;
use session::Settings;
use std::io::Write;
use store::Store;

// The bytes of the store's region: 256 pages.
const REGION: usize = 1048576;

// The approver's own code for a no.
const CODE: u32 = 0x80004005;

// The field that tells how many bytes were received.
const RECEIVED: &str = "BITS-Received-Content-Range";

const TWENTY: Part = Part {
    first: 0,
    announced: 20,
    sent: 20,
    total: 20,
};

// What most stories run under.
const USUAL: Settings = Settings {
    site: 1,
    first_serial: 1,
    maximum: 100000,
    uploads: true,
    overwriting: false,
    approver: false,
};

// An intake, and where its calls are shown.
struct Case<'a, S: Store> {
    rt: &'a HostRuntime,
    intake: Intake<S>,
}

impl<S: Store> Case<'_, S> {
    // Answers a notice that nothing is to be made of, if there is one: one call of `settle`.
    fn spend(&mut self, notice: Option<Notice>) {
        if let Some(notice) = notice {
            settle(
                &mut self.intake,
                notice,
                Verdict::Yes(b""),
                &mut [0; LEAST_PAGE],
            );
        }
    }

    // Shows what a call came to, and gives its notice.
    fn show(&mut self, what: &str, reply: Reply) -> anyhow::Result<Option<Notice>> {
        let Reply {
            outcome,
            used,
            length,
            notice,
        } = reply;
        if let Err(error) = show(self.rt, what, outcome, used, length) {
            self.spend(notice);
            return Err(error.into());
        }
        Ok(notice)
    }

    // Sends a message from which no notice is awaited, and shows the lines of its acknowledgement that begin with
    // `start`. The rest of the page is zeros.
    fn send_on(
        &mut self,
        what: &str,
        input: &[u8],
        page: &mut [u8],
        start: &str,
    ) -> anyhow::Result<()> {
        let reply = self.intake.message(input, page);
        let notice = self.show(what, reply)?;
        self.spend(notice);
        show_lines(self.rt, page, start)
    }

    fn send(&mut self, what: &str, input: &[u8]) -> anyhow::Result<()> {
        self.send_on(what, input, &mut [0; LEAST_PAGE], RECEIVED)
    }

    // Sends a fragment that makes its bundle whole, and gives the notice that it hands out. Where the line about it
    // cannot be written, that is told as a notice that is not there.
    fn hand_in(&mut self, input: &[u8]) -> anyhow::Result<Notice> {
        let reply = self.intake.message(input, &mut [0; LEAST_PAGE]);
        match self.show("a whole bundle, for the approver", reply) {
            Ok(Some(notice)) => Ok(notice),
            Ok(None) | Err(_) => Err(anyhow!("no notice")),
        }
    }

    // The approver's answer, and what its acknowledgement says of the bytes received, the reply address and the error.
    fn rule(&mut self, what: &str, notice: Notice, verdict: Verdict<'_>) -> anyhow::Result<()> {
        let mut page = [0; LEAST_PAGE];
        let Settled { outcome, length } = settle(&mut self.intake, notice, verdict, &mut page);
        show(self.rt, what, outcome, 0, length)?;
        show_lines(self.rt, &page, "BITS-Re")?;
        show_lines(self.rt, &page, "BITS-Error")
    }

    // An answer with a page of 1,023 bytes: the notice is handed back.
    fn rule_short(&mut self, notice: Notice) -> anyhow::Result<Notice> {
        let mut page = [0; LEAST_PAGE - 1];
        let reply = self.intake.answer(notice, Verdict::Yes(b""), &mut page);
        match self.show("a yes, page of 1,023 bytes", reply) {
            Ok(Some(notice)) => Ok(notice),
            Ok(None) | Err(_) => Err(anyhow!("the notice is lost")),
        }
    }

    fn tick(&mut self, reading: u64) -> anyhow::Result<()> {
        let ended = self.intake.tick(reading);
        println!(self.rt; "a tick to {reading}: sessions ended {ended}")?;
        Ok(())
    }
}

// The limits of fragments, values and pages.
fn sizes<S: Store>(case: &mut Case<'_, S>) -> anyhow::Result<()> {
    let heap = case.rt.alloc();
    let most = Part {
        first: 0,
        announced: 32768,
        sent: 32768,
        total: 100000,
    };
    let over = Part {
        first: 32768,
        announced: 32769,
        sent: 32769,
        total: 100000,
    };
    case.send("a value of 4,096 bytes", &ping(heap, 4096)?)?;
    case.send("a value of 4,097 bytes", &ping(heap, 4097)?)?;
    case.send("a creation", &create(heap, PATH)?)?;
    case.send("a fragment of 32,768 bytes", &fragment(heap, most)?)?;
    case.send("a fragment of 32,769 bytes", &fragment(heap, over)?)?;
    let mut short = [0; LEAST_PAGE - 1];
    case.send_on(
        "a ping, page of 1,023 bytes",
        &ping(heap, 1)?,
        &mut short,
        RECEIVED,
    )
}

// 16 sessions, and one more.
fn crowd<S: Store>(case: &mut Case<'_, S>) -> anyhow::Result<()> {
    let heap = case.rt.alloc();
    for i in 1..18u8 {
        let path = format!(in heap; "/scripts/{i}.zip")?;
        let what = format!(in heap; "creation {i}")?;
        case.send(what.as_str(), &create(heap, path.as_str())?)?;
    }
    Ok(())
}

// Creations, and the ids that they give.
fn serials<S: Store>(case: &mut Case<'_, S>) -> anyhow::Result<()> {
    let heap = case.rt.alloc();
    for (what, path) in [
        ("a creation", "/scripts/a.zip"),
        ("another creation", "/scripts/b.zip"),
    ] {
        let input = create(heap, path)?;
        case.send_on(what, &input, &mut [0; LEAST_PAGE], "BITS-Session-Id")?;
    }
    Ok(())
}

// A fragment of 10 bytes of which 4 came, then the 16 that follow those.
fn cut<S: Store>(case: &mut Case<'_, S>) -> anyhow::Result<()> {
    let heap = case.rt.alloc();
    let torn = Part {
        first: 0,
        announced: 10,
        sent: 4,
        total: 20,
    };
    let rest = Part {
        first: 4,
        announced: 16,
        sent: 16,
        total: 20,
    };
    case.send("a creation", &create(heap, PATH)?)?;
    case.send(
        "a fragment of 10 bytes, cut after 4",
        &fragment(heap, torn)?,
    )?;
    case.send("the 16 bytes behind those", &fragment(heap, rest)?)?;
    case.send("a close", &close(heap)?)
}

// What the approver may say of one bundle.
fn asked<S: Store>(case: &mut Case<'_, S>) -> anyhow::Result<()> {
    let heap = case.rt.alloc();
    case.send("a creation", &create(heap, PATH)?)?;
    let bundle = fragment(heap, TWENTY)?;
    let notice = case.hand_in(&bundle)?;
    let met = case.send("the same fragment at the approver", &bundle);
    case.rule(
        "a yes, address of 257 bytes",
        notice,
        Verdict::Yes(&[b'x'; 257]),
    )?;
    met?;
    let notice = case.hand_in(&bundle)?;
    case.rule("a no", notice, Verdict::No(CODE))?;
    let notice = case.hand_in(&bundle)?;
    let notice = case.rule_short(notice)?;
    case.rule(
        "a yes, address of 256 bytes",
        notice,
        Verdict::Yes(&[b'x'; 256]),
    )?;
    case.send("a close", &close(heap)?)
}

// A session is as old as its last message of number 0.
fn aged<S: Store>(case: &mut Case<'_, S>) -> anyhow::Result<()> {
    let heap = case.rt.alloc();
    let bundle = fragment(heap, TWENTY)?;
    let torn = fragment(heap, Part { sent: 4, ..TWENTY })?;
    case.send("a creation", &create(heap, PATH)?)?;
    case.tick(1000)?;
    case.send("a fragment", &bundle)?;
    case.tick(1000 + 1209599)?;
    case.send("a fragment, cut", &torn)?;
    case.tick(1000 + 1209600)?;
    case.send("a fragment", &bundle)
}

fn new_store(rt: &HostRuntime) -> anyhow::Result<PageStore> {
    Ok(PageStore::new(vec![in rt.alloc(); 0u8; REGION]?)?)
}

// What stands under the path of all requests.
fn show_published<S: Store>(rt: &HostRuntime, store: &S) -> anyhow::Result<()> {
    let mut bytes = [b'.'; 20];
    match store.copy(PATH.as_bytes(), 0, &mut bytes) {
        Ok(n) => println!(rt; "published under {PATH}: {n} bytes")?,
        Err(_) => println!(rt; "published under {PATH}: nothing")?,
    }
    rt.stdout().write_all(&bytes)?;
    println!(rt)?;
    Ok(())
}

fn run_story<F: FnOnce(&mut Case<'_, PageStore>) -> anyhow::Result<()>>(
    rt: &HostRuntime,
    title: &str,
    settings: Settings,
    story: F,
) -> anyhow::Result<()>
    requires { F.IsAlwaysCallable story }
{
    println!(rt; "{title}")?;
    let intake = Intake::new(new_store(rt)?, settings)?;
    let mut case = Case { rt, intake };
    let told = story(&mut case);
    let Case { rt: _, intake } = case;
    let store = intake.into_store();
    told?;
    show_published(rt, &store)?;
    println!(rt)?;
    Ok(())
}

// A maximum of 0: the store comes back.
fn run_broken(rt: &HostRuntime) -> anyhow::Result<()> {
    println!(rt; "a broken setting")?;
    let settings = Settings {
        maximum: 0,
        ..USUAL
    };
    match Intake::new(new_store(rt)?, settings) {
        Ok(intake) => {
            let _store = intake.into_store();
            Err(anyhow!("a maximum of 0 was taken"))
        }
        Err(BadSetting { store, outcome }) => {
            show(rt, "a maximum of 0", outcome, 0, 0)?;
            println!(rt; "the store is back, its room {}", store.room(0))?;
            Ok(())
        }
    }
}

fn from_serial(first_serial: u64) -> Settings {
    Settings {
        first_serial,
        ..USUAL
    }
}

pub(crate) fn run(rt: &HostRuntime) -> anyhow::Result<()> {
    let with_approver = Settings {
        approver: true,
        ..USUAL
    };
    run_story(rt, "sizes", USUAL, sizes)?;
    run_story(rt, "too many sessions", USUAL, crowd)?;
    run_story(rt, "first serial 10", from_serial(10), serials)?;
    run_story(
        rt,
        "first serial 2^64 - 2",
        from_serial(u64::MAX - 1),
        serials,
    )?;
    run_story(rt, "first serial 2^64 - 1", from_serial(u64::MAX), serials)?;
    run_story(rt, "a cut fragment", USUAL, cut)?;
    run_story(rt, "the approver", with_approver, asked)?;
    run_story(rt, "14 days", USUAL, aged)?;
    run_broken(rt)
}
