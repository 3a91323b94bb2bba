// Says what a request on standard input reads as, or why it is refused and where.
#![tactic(auto)]

use ids::SessionId;
use packet::{Action, Fault, Packet, read_packet};
use shown::Shown;
use std::io;
use std::io::Read;

// The most bytes of a bad line that are shown.
const MOST_SHOWN: usize = 200;

// The line that begins at `at`, or what is shown of it.
fn shown_line(input: &[u8], at: usize) -> Shown<'_, false> {
    let rest = input.get(at..).unwrap_or(&[]);
    let length = rest
        .windows(2)
        .take(MOST_SHOWN)
        .position(|w| w == b"\r\n".as_slice())
        .unwrap_or(rest.len());
    Shown(&rest[..length.min(MOST_SHOWN)])
}

fn print_refusal(rt: &impl Print, input: &[u8], fault: Fault) -> io::Result<()> {
    let place = fault.place();
    println!(rt;
        "refused, number {}, offset {place}: {fault}",
        fault.number()
    )?;
    println!(rt; "line at {place}: {}", shown_line(input, place))
}

fn print_id(rt: &impl Print, id: SessionId) -> io::Result<()> {
    println!(rt; "session: site {:016x}, serial {:016x}", id.site, id.serial)
}

fn print_action(rt: &impl Print, action: Action) -> io::Result<()> {
    match action {
        Action::Create { shared: true } => println!(rt;
            "type: CREATE-SESSION, our protocol is offered"
        ),
        Action::Create { shared: false } => println!(rt;
            "type: CREATE-SESSION, our protocol is not offered"
        ),
        Action::Ping => println!(rt; "type: PING"),
        Action::Fragment { id, range, at } => {
            println!(rt; "type: FRAGMENT")?;
            println!(rt;
                "range: {} to {} of {}, line at {at}",
                range.first, range.last, range.total
            )?;
            print_id(rt, id)
        }
        Action::Close { id } => {
            println!(rt; "type: CLOSE-SESSION")?;
            print_id(rt, id)
        }
        Action::Cancel { id } => {
            println!(rt; "type: CANCEL-SESSION")?;
            print_id(rt, id)
        }
    }
}

fn print_packet(rt: &impl Print, packet: Packet) -> io::Result<()> {
    println!(rt; "path: {}", Shown::<false>(packet.path))?;
    print_action(rt, packet.action)?;
    println!(rt; "head: {} bytes", packet.head_size)?;
    println!(rt;
        "body: {} of {} bytes",
        packet.body.len(),
        packet.content_length
    )
}

fn explain(rt: &impl Print, input: &[u8]) -> io::Result<()> {
    match read_packet(input) {
        Ok(packet) => print_packet(rt, packet),
        Err(fault) => print_refusal(rt, input, fault),
    }
}

fn main(rt: HostRuntime) -> anyhow::Result<()> {
    let mut input = Vec::new(rt.alloc());
    rt.stdin().read_to_end(&mut input)?;
    explain(&rt, input.as_slice())?;
    Ok(())
}
