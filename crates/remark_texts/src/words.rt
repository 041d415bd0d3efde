//! Words of commands, and the library for command lines.
use run_notes::put_word_fault;
use std::alloc::Global;
use std::test::Fail;

/// Words that are those of a command, in each form of an option.
const TAKEN: &str = "\
solve --core F
solve --core=F --time T --stoch=S --edits E --solves 3 --pivots=1000000000 --workers 1
solve --core F --workers 64
solve --core F --quiet
solve --quiet --core F --solves 3
solve --quiet=yes --core F
show --edits=E --stoch S --time=T=1 --core a=b
flat --core F --time=T --stoch S --edits E
flat --whole --core F
flat --core F --whole=yes
value --core F --time T
value --core F --quiet --time T
value --workers 1 --pivots=7 --stoch S --solves 3 --time=T --core=F
check --core F --report=R
check --report R --edits E --stoch S --time T --core F
solve --core F --tail 1/2 --weight 1
solve --weight=0.25 --core F --tail=0 --time T
check --core F --report R --tail=0.95 --weight 1/4
solve --core F --basis B
solve --basis=B --time T --core F --solves 3 --quiet
table --core F --report=R
table --report R --edits E --stoch S --time T --core=F --number 1 --form text
table --report R --core F --number=10001 --form=csv
table --report R --core F --form json
table --report R --core F --form=html
table --report R --core F --form=html --value V
make --start 0 --stages 2 --branches 2 --size 1
make --start 0 --stages 2 --branches 2 --size 1 --quiet
make --size=20 --branches=4 --stages=6 --start=65536 --text=core
make --start 1 --stages 3 --branches 3 --size 2 --text time
make --start 1 --stages 3 --branches 3 --size 2 --text stoch
";

/// What is said where the library for command lines finds nothing wrong with words.
const NOTHING_WRONG: &str =
    "each word is an option or its value, a file name isn't empty and doesn't begin with '-', and a number has digits alone, at most ten; \
A of --tail is a number from 0 and below 1, W of --weight one from 0 to 1";

/// What is said first of the words of a line.
fn word_fault(alloc: Global, line: &str) -> Result<String, Fail> {
    let mut words = Vec::new(alloc);
    for word in line.split_whitespace() {
        words.push(String::from_str(alloc, word)?)?;
    }
    let mut said = String::new(alloc);
    put_word_fault(alloc, &mut said, &words)?;
    let first = said.lines().next().ok_or("nothing is said")?;
    Ok(String::from_str(alloc, first)?)
}

/// The library knows the same commands and options as the program.
#[test]
fn words_of_commands_are_taken(rt: HostRuntime) -> Result<(), Fail> {
    let alloc = rt.alloc();
    for words in TAKEN.lines() {
        let said = word_fault(alloc, words)?;
        assert_eq!(rt; said.as_str(), NOTHING_WRONG, "{words}");
    }
    Ok(())
}
