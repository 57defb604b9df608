//! The callers that the crates' pages of docs show, where no crate below has one: a file for each page.
#![tactic(auto)]

#[cfg(test)]
mod any_pipe_page;
#[cfg(test)]
mod asserts;
#[cfg(test)]
mod audit_run_page;
#[cfg(test)]
mod chain_pipes_page;
#[cfg(test)]
mod chunk_core_page;
#[cfg(test)]
mod command_words_page;
#[cfg(test)]
mod csv_pipes_page;
#[cfg(test)]
mod device_port_page;
#[cfg(test)]
mod flume_cli_page;
#[cfg(test)]
mod ledger_audit_page;
#[cfg(test)]
mod ledger_text_page;
#[cfg(test)]
mod loads;
#[cfg(test)]
mod pipeline_desc_page;
#[cfg(test)]
mod pull_nodes_page;
#[cfg(test)]
mod source_input_page;
#[cfg(test)]
mod step_words_page;
#[cfg(test)]
mod stream_ops_page;
#[cfg(test)]
mod text_pipes_page;
