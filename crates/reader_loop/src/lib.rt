// Reading one item, or many, into the table: what such readers ensure, and the law of their loops. No functions.
#![tactic(auto)]
