//! The worked history of a shopping list, as a session at the document `d`.

/// Its lines.
pub const SHOPPING: &str = r#"["open","d"]
["assign","d",[0],{}]
["assign","d",[0,"shopping"],[]]
["insert","d",[0,"shopping",0],"eggs"]
["let","d","e",[0,"shopping",1]]
["insert","d",[0,"shopping",0],"cheese"]
["insert","d",["e"],"milk"]
["items","d",[0,"shopping"]]
"#;

/// Their replies.
pub const SHOPPED: &str = r#"["opened",1]
["applied",1,0,[1,"srv-1"]]
["applied",1,0,[2,"srv-1"]]
["applied",1,0,[3,"srv-1"]]
["bound"]
["applied",1,0,[4,"srv-1"]]
["applied",1,0,[5,"srv-1"]]
["items",[[[4,"srv-1"],["cheese"]],[[3,"srv-1"],["eggs"]],[[5,"srv-1"],["milk"]]]]
"#;
