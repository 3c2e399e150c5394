// What the programs share that replay a sample of the oracle's answers. A file of cases has one case a line, in words (read.rt): how many words the line
// has; the number of what is called, which each program's cases.rt has, and which of the calls; then four times a count and so
// many words, for the numbers that the call is given, two slices, and a slice that it may write to; what it answered (said.rt), and that slice afterwards.
// The counts of a time record that is answered are the last of the numbers given (records.rt). A slice of more than ROOM places stands in the line as one
// word (lists.rt). The loop over the files and their lines stands in files.rt; a program hands it the names of its files and a function that says of a
// line whether the library agrees. This is a test and no part of what is linked: its functions are proved safe and ending, and say nothing of what they
// answer. That they see a difference is tried by the cases whose answer is wrong.
#![tactic(auto)]

pub mod files;
pub mod lists;
pub mod made;
pub mod packed;
pub mod read;
pub mod records;
pub mod said;
