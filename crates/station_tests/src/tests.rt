mod beside;
mod calls;
mod journal_lines;
mod receipts;
mod sample;
mod shared;
mod unsaid;
