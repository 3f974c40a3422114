// Tables of cases: charts on both sides of every limit, the kinds at their edges, tables that are closed, and what is
// printed. One kind of weight is made for them.
#![tactic(auto)]

#[cfg(test)]
mod answers;
#[cfg(test)]
mod callers;
#[cfg(test)]
mod clearing;
#[cfg(test)]
mod closing;
#[cfg(test)]
mod files;
#[cfg(test)]
mod kinds;
#[cfg(test)]
mod memory;
#[cfg(test)]
mod named;
#[cfg(test)]
mod pairs;
#[cfg(test)]
mod parts;
#[cfg(test)]
mod printing;
#[cfg(test)]
mod reading;
#[cfg(test)]
mod records;
pub mod two_totals;
