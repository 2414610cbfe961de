//! Tests of `ov_store`: callers that go from call to call by its contracts alone, a store whose disk
//! failed, and a store on two files. What a store answers and leaves on its disk is in the cases of
//! `server_cases`.
#![tactic(auto)]

#[cfg(test)]
mod store;
