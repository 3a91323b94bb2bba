// An intake over standard input and output: reads the bytes of one connection and writes what they are answered.
#![tactic(auto)]

mod service;

fn main(rt: HostRuntime) -> anyhow::Result<()> {
    service::run(&rt)
}
