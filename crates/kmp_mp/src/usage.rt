//! How the program is called.

/// The command, its options with what is meant without them, and the statuses.
pub const USAGE: &str = "\
usage: kmp_mp run [OPTION ..] < SOURCE           runs an assembler source, and writes one report
       kmp_mp run --image [OPTION ..] < IMAGE    the same with the bytes of an image

Each core runs on a thread of its own, so the order of accesses is another one each time. kmp
writes images and checks reports, also those of kmp_mp.

Options:
  --machine=pipe     cores with five stages over flat memory; so without it
  --machine=plain    unpipelined cores over flat memory
  --cores=N          1 to 8 cores; without it 1
  --budget=N         1 to 100000 cycles for each core; without it 20000
  --seed=N           0 to 4294967295, where what is drawn begins; without it 0
  --memory=N         16 to 16777216 bytes of memory, a multiple of 8; without it 65536
  --image            the input is an image, which tells its memory; without it a source

Status:
  0    each core ended at halt
  1    a core ended otherwise
  2    the words have no meaning
  3    the input has no meaning
  4    the input could not be read
  5    the output could not be written
  6    there was too little memory
  8    the system could not hand over the words

Example:
  echo halt | kmp_mp run --cores=2

docs/FORMATS.md tells what each row means, and docs/MACHINE.md how a source is written.
";
