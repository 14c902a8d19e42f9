// The program (01): a script on standard input, its answers and the report on standard output.
#![tactic(auto)]

fn main(rt: HostRuntime) {
    stream::serve(&rt, &mut rt.stdin(), &mut rt.stdout());
}
