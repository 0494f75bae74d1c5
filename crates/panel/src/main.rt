// The panel: the bench runner with more verbs.
#![tactic(auto)]

fn main(rt: HostRuntime) {
    bench_run::run(
        &rt,
        true,
        b"panel: standard input",
        b"panel: standard output",
    );
}
