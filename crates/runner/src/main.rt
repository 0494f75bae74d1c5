// The bench runner: the build paper's verbs, and no other.
#![tactic(auto)]

fn main(rt: HostRuntime) {
    bench_run::run(
        &rt,
        false,
        b"runner: standard input",
        b"runner: standard output",
    );
}
