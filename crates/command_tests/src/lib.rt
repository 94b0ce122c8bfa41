// Examples of the command file, worked by hand: commands as bytes, bytes that are no command, and lines.

#![tactic(auto)]

#[cfg(test)]
mod each_letter;
#[cfg(test)]
mod lines_written;
#[cfg(test)]
mod refusals;
#[cfg(test)]
mod text_lines;
