//! How the program is called.

/// The commands, their options with what is meant without them, and the statuses.
pub const USAGE: &str = "\
usage: kmp run [OPTION ..] < SOURCE           runs an assembler source, and writes one report
       kmp run --image [OPTION ..] < IMAGE    the same with the bytes of an image
       kmp asm [--memory=N] < SOURCE          writes the image of a source
       kmp replay < REPORT                    writes whether a report is right
       kmp trial [OPTION ..]                  runs a source that a seed draws, and writes a summary

Options of run and trial:
  --machine=pipe     cores with five stages over flat memory; so without it
  --machine=plain    unpipelined cores over flat memory
  --cores=N          1 to 8 cores; without it 1
  --budget=N         1 to 100000 cycles for each core; without it 20000
  --turns=round      each core has a cycle in each round, by rising number; so without it
  --turns=seeded     each cycle is that of a core that the seed draws
  --seed=N           0 to 4294967295, where what is drawn begins; without it 0

Options of run:
  --memory=N         16 to 16777216 bytes of memory, a multiple of 8; without it 65536; also of asm
  --image            the input is an image, which tells its memory; without it a source

Option of trial:
  --size=N           0 to 1000 blocks of its source; without it 100

Status:
  0    each core ended at halt, the image was written, or the report is right
  1    a core ended otherwise
  2    the words have no meaning
  3    the input has no meaning
  4    the input could not be read
  5    the output could not be written
  6    there was too little memory
  7    the report isn't right
  8    the system could not hand over the words

Example:
  echo halt | kmp run --cores=2

docs/FORMATS.md tells what each row means, and docs/MACHINE.md how a source is written.
";
