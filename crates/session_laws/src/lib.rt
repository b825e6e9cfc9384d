// What sessions and the book of their station come to together.
//
// `session_core` says what a session does by the answers of its link and of the book, and
// `station_book` what a book answers. Here stands what follows of both, over whole legal histories:
// nothing that a session asks is lost (`specs/Losing.antt`); a START begins a delivery
// (`specs/Starts.antt`), and what it hands its link is what that delivery hands over of the
// published entries (`specs/Deliveries.antt`), all that it is owed (`specs/Owing.antt`); and its
// status reports come in time and say what came (`specs/Reports.antt`). The module `laws` has them.
//
// A session's services are looked into in few places: `return_of` says which instance of a return
// service one keeps, and the first lemmas of `proofs/Deliveries.antt`, `proofs/Starts.antt` and
// `proofs/Reports.antt` what a session makes of it. Which of the return services it is one of is a
// value, its kind.
//
// The laws run nothing.
#![tactic(auto)]

pub mod laws;
