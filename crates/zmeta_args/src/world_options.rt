//! The options of a search as `catalogues` takes them: with `--world`.

use crate::options::{
    ANY, ASKED_SYNTAX, AUTHOR, CommandOption, ISBN, ISSN, QUERY, RECORDS, SUBJECT, TITLE, YEAR,
};

/// The option that each of them needs.
const NEEDS: &[&str] = &["world"];

pub(crate) const WORLD_QUERY: CommandOption = CommandOption {
    needs: NEEDS,
    ..QUERY
};

pub(crate) const WORLD_TITLE: CommandOption = CommandOption {
    needs: NEEDS,
    ..TITLE
};

pub(crate) const WORLD_AUTHOR: CommandOption = CommandOption {
    needs: NEEDS,
    ..AUTHOR
};

pub(crate) const WORLD_SUBJECT: CommandOption = CommandOption {
    needs: NEEDS,
    ..SUBJECT
};

pub(crate) const WORLD_ISBN: CommandOption = CommandOption {
    needs: NEEDS,
    ..ISBN
};

pub(crate) const WORLD_ISSN: CommandOption = CommandOption {
    needs: NEEDS,
    ..ISSN
};

pub(crate) const WORLD_YEAR: CommandOption = CommandOption {
    needs: NEEDS,
    ..YEAR
};

pub(crate) const WORLD_ANY: CommandOption = CommandOption {
    needs: NEEDS,
    ..ANY
};

pub(crate) const WORLD_RECORDS: CommandOption = CommandOption {
    needs: NEEDS,
    ..RECORDS
};

pub(crate) const WORLD_SYNTAX: CommandOption = CommandOption {
    needs: NEEDS,
    ..ASKED_SYNTAX
};
