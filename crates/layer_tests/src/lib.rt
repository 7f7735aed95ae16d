//! Tests of what no command shows, in rows of worked values: what is built from the code of small
//! programs, node by node, and their bounds and persistent parts next to those that a slow program
//! finds; the solver that finds facts of graphs; delays of sets of shares, by counts and by the
//! plain unions of older tools; certificates whose states are in an order that a text may not have,
//! and certificates that are written as they are read; generated task sets, files and scripts;
//! words and the cycles of instructions, the watch over a job's flow, accesses to the cache and
//! bytes of the data memory; what a run shows after each cycle, and that both machines agree; and
//! the text of a generated input with late jobs. This crate has only tests.
#![tactic(auto)]

// Small programs, and what is loaded and built from them, in the ranges that the tested calls
// require.
#[cfg(test)]
mod cases;
#[cfg(test)]
mod graphs;
#[cfg(test)]
mod loading;
#[cfg(test)]
mod programs;
#[cfg(test)]
mod ranges;
#[cfg(test)]
mod scripts;
#[cfg(test)]
mod sets;
#[cfg(test)]
mod words;

// What is built from code.
#[cfg(test)]
mod nodes;
#[cfg(test)]
mod persistent;
#[cfg(test)]
mod solver;
#[cfg(test)]
mod ways;

// Delays, certificates and generated input.
#[cfg(test)]
mod classic;
#[cfg(test)]
mod delays;
#[cfg(test)]
mod made;
#[cfg(test)]
mod orders;
#[cfg(test)]
mod written;

// Single steps, runs and their texts.
#[cfg(test)]
mod accesses;
#[cfg(test)]
mod cycles;
#[cfg(test)]
mod instructions;
#[cfg(test)]
mod memory;
#[cfg(test)]
mod runs;
#[cfg(test)]
mod texts;
#[cfg(test)]
mod watches;
