//! The help, which is told where the words name no command.
ghost use Rattle.std.specs.Prelude.{◌≡◌};
ghost use Rattle.dkg_words.specs.Help.{help_text};

/// What the program is called with, and how it ends.
pub fn help() -> &'static [u8]
    ensures { result.now ≡ help_text }
{
    b"dkg run < SCRIPT     runs the script on standard input, and writes its transcript\n\
dkg make N           runs the script that is made of the number N, and writes a summary of it\n\
dkg make N script    writes the text of that script\n\
\n\
A script comes by standard input, never by its name. docs/SCRIPT.md has its grammar, line by line, and\n\
examples/README.md fifteen of them, told. The devices live in memory, and the ceremony hides nothing\n\
(README.md, \"Who is covered\").\n\
\n\
Status  Last line on standard output\n\
0       done          every life was run\n\
2       usage         these words are no command\n\
3       bad PLACE     the text is no script: at this byte begins a line that no script has there\n\
4       fault ..      the node stopped for good (docs/SCRIPT.md, \"Faults\")\n\
5       fault 2 or 3  the disk or the secret store failed\n\
6                     memory ran out\n\
7                     standard input could not be read\n\
8                     standard output could not be written\n\
9                     standard input has more than 16777216 bytes\n\
10      unsupported   the script has a line that isn't run yet\n\
\n\
A line on standard error says which line of the script it is, and what is wrong with it.\n"
}
