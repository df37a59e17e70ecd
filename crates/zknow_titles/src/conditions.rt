//! The conditions of the diagnostic set bib-1 and the words for them (Z39.50-2003, Appendix DIAG).
ghost use Rattle.std.specs.Prelude.{◌≡◌, map};
ghost use Rattle.std.specs.Option.{option_copied};
ghost use Rattle.zknow_titles.specs.Conditions.{words_in, condition_words};

/// The conditions from 1 on: each number and its words.
static FROM_1: [(u16, &[u8]); 33] = [
    (1, b"Permanent system error"),
    (2, b"Temporary system error"),
    (3, b"Unsupported search"),
    (4, b"Terms only exclusion (stop) words"),
    (5, b"Too many argument words"),
    (6, b"Too many boolean operators"),
    (7, b"Too many truncated words"),
    (8, b"Too many incomplete subfields"),
    (9, b"Truncated words too short"),
    (10, b"Invalid format for record number (search term)"),
    (11, b"Too many characters in search statement"),
    (12, b"Too many records retrieved"),
    (13, b"Present request out of range"),
    (14, b"System error in presenting records"),
    (15, b"Record no authorized to be sent intersystem"),
    (16, b"Record exceeds Preferred-message-size"),
    (17, b"Record exceeds Maximum-record-size"),
    (18, b"Result set not supported as a search term"),
    (19, b"Only single result set as search term supported"),
    (
        20,
        b"Only ANDing of a single result set as search term supported",
    ),
    (21, b"Result set exists and replace indicator off"),
    (22, b"Result set naming not supported"),
    (23, b"Combination of specified databases not supported"),
    (24, b"Element set names not supported"),
    (
        25,
        b"Specified element set name not valid for specified database",
    ),
    (26, b"Only a single element set name supported"),
    (
        27,
        b"Result set no longer exists - unilaterally deleted by target",
    ),
    (28, b"Result set is in use"),
    (29, b"One of the specified databases is locked"),
    (30, b"Specified result set does not exist"),
    (31, b"Resources exhausted - no results available"),
    (
        32,
        b"Resources exhausted - unpredictable partial results available",
    ),
    (
        33,
        b"Resources exhausted - valid subset of results available",
    ),
];

/// The conditions from 100 on: each number and its words.
static FROM_100: [(u16, &[u8]); 33] = [
    (100, b"Unspecified error"),
    (101, b"Access-control failure"),
    (
        102,
        b"Security challenge required but could not be issued - request terminated",
    ),
    (
        103,
        b"Security challenge required but could not be issued - record not included",
    ),
    (104, b"Security challenge failed - record not included"),
    (105, b"Terminated by negative continue response"),
    (106, b"No abstract syntaxes agreed to for this record"),
    (107, b"Query type not supported"),
    (108, b"Malformed query"),
    (109, b"Database unavailable"),
    (110, b"Operator unsupported"),
    (111, b"Too many databases specified"),
    (112, b"Too many result sets created"),
    (113, b"Unsupported attribute type"),
    (114, b"Unsupported Use attribute"),
    (115, b"Unsupported value for Use attribute"),
    (116, b"Use attribute required but not supplied"),
    (117, b"Unsupported Relation attribute"),
    (118, b"Unsupported Structure attribute"),
    (119, b"Unsupported Position attribute"),
    (120, b"Unsupported Truncation attribute"),
    (121, b"Unsupported Attribute Set"),
    (122, b"Unsupported Completeness attribute"),
    (123, b"Unsupported attribute combination"),
    (124, b"Unsupported coded value for term"),
    (125, b"Malformed search term"),
    (126, b"Illegal term value for attribute"),
    (127, b"Unparsable format for un-normalized value"),
    (128, b"Illegal result set name"),
    (129, b"Proximity search of sets not supported"),
    (130, b"Illegal result set in proximity search"),
    (131, b"Unsupported proximity relation"),
    (132, b"Unsupported proximity unit code"),
];

/// The conditions from 201 on: each number and its words.
static FROM_201: [(u16, &[u8]); 46] = [
    (
        201,
        b"Proximity not supported with this attribute combination",
    ),
    (202, b"Unsupported distance for proximity"),
    (203, b"Ordered flag not supported for proximity"),
    (205, b"Only zero step size supported for Scan"),
    (206, b"Specified step size not supported for Scan"),
    (207, b"Cannot sort according to sequence"),
    (208, b"No result set name supplied on Sort"),
    (
        209,
        b"Generic sort not supported (database-specific sort only supported)",
    ),
    (210, b"Database specific sort not supported"),
    (211, b"Too many sort keys"),
    (212, b"Duplicate sort keys"),
    (213, b"Unsupported missing data action"),
    (214, b"Illegal sort relation"),
    (215, b"Illegal case value"),
    (216, b"Illegal missing data action"),
    (
        217,
        b"Segmentation: Cannot guarantee records will fit in specified segments",
    ),
    (218, b"ES: Package name already in use"),
    (219, b"ES: no such package, on modify/delete"),
    (220, b"ES: quota exceeded"),
    (221, b"ES: extended service type not supported"),
    (222, b"ES: permission denied on ES - id not authorized"),
    (
        223,
        b"ES: permission denied on ES - cannot modify or delete",
    ),
    (224, b"ES: immediate execution failed"),
    (
        225,
        b"ES: immediate execution not supported for this service",
    ),
    (
        226,
        b"ES: immediate execution not supported for these parameters",
    ),
    (227, b"No data available in requested record syntax"),
    (228, b"Scan: malformed scan"),
    (229, b"Term type not supported"),
    (230, b"Sort: too many input results"),
    (231, b"Sort: incompatible record formats"),
    (232, b"Scan: term list not supported"),
    (233, b"Scan: unsupported value of position-in-response"),
    (234, b"Too many index terms processed"),
    (235, b"Database does not exist"),
    (236, b"Access to specified database denied"),
    (237, b"Sort: illegal sort"),
    (238, b"Record not available in requested syntax"),
    (239, b"Record syntax not supported"),
    (
        240,
        b"Scan: Resources exhausted looking for satisfying terms",
    ),
    (241, b"Scan: Beginning or end of term list"),
    (
        242,
        b"Segmentation: max-segment-size too small to segment record",
    ),
    (243, b"Present:  additional-ranges parameter not supported"),
    (244, b"Present:  comp-spec parameter not supported"),
    (
        245,
        b"Type-1 query: restriction ('resultAttr') operand not supported",
    ),
    (246, b"Type-1 query: 'complex' attributeValue not supported"),
    (
        247,
        b"Type-1 query: 'attributeSet' as part of AttributeElement not supported",
    ),
];

/// The conditions from 1001 on: each number and its words.
static FROM_1001: [(u16, &[u8]); 29] = [
    (1001, b"Malformed APDU"),
    (
        1002,
        b"ES: EXTERNAL form of Item Order request not supported",
    ),
    (
        1003,
        b"ES: Result set item form of Item Order request not supported",
    ),
    (
        1004,
        b"ES: Extended services not supported unless access control is in effect",
    ),
    (1005, b"Response records in Search response not supported"),
    (
        1006,
        b"Response records in Search response not possible for specified database (or database combination)",
    ),
    (
        1007,
        b"No Explain server. Addinfo: pointers to servers that have a surrogate Explain database for this server",
    ),
    (
        1008,
        b"ES: missing mandatory parameter for specified function. Addinfo: parameter",
    ),
    (
        1009,
        b"ES: Item Order, unsupported OID in itemRequest. Addinfo: OID",
    ),
    (1010, b"Init/AC: Bad Userid"),
    (1011, b"Init/AC: Bad Userid and/or Password"),
    (
        1012,
        b"Init/AC: No searches remaining (pre-purchased searches exhausted)",
    ),
    (
        1013,
        b"Init/AC: Incorrect interface type (specified id valid only when used with a particular \
          access method or client)",
    ),
    (1014, b"Init/AC: Authentication System error"),
    (
        1015,
        b"Init/AC: Maximum number of simultaneous sessions for Userid",
    ),
    (1016, b"Init/AC: Blocked network address"),
    (
        1017,
        b"Init/AC: No databases available for specified userId",
    ),
    (1018, b"Init/AC: System temporarily out of resources"),
    (1019, b"Init/AC: System not available due to maintenance"),
    (
        1020,
        b"Init/AC: System temporarily unavailable (Addinfo: when it's expected back up)",
    ),
    (1021, b"Init/AC: Account has expired"),
    (
        1022,
        b"Init/AC: Password has expired so a new one must be supplied",
    ),
    (
        1023,
        b"Init/AC: Password has been changed by an administrator so a new one must be supplied",
    ),
    (1024, b"Unsupported Attribute"),
    (1025, b"Service not supported for this database"),
    (1026, b"Record cannot be opened because it is locked"),
    (1027, b"SQL error"),
    (1028, b"Record deleted"),
    (
        1029,
        b"Scan: too many terms requested. Addinfo: max terms supported",
    ),
];

/// The conditions from 1040 on: each number and its words.
static FROM_1040: [(u16, &[u8]); 35] = [
    (1040, b"ES: Invalid function"),
    (1041, b"ES: Error in retention time"),
    (1042, b"ES: Permissions data not understood"),
    (1043, b"ES: Invalid OID for task specific parameters"),
    (1044, b"ES: Invalid action"),
    (1045, b"ES: Unknown schema"),
    (1046, b"ES: Too many records in package"),
    (1047, b"ES: Invalid wait action"),
    (
        1048,
        b"ES: Cannot create task package -- exceeds maximum permissible size",
    ),
    (
        1049,
        b"ES: Cannot return task package -- exceeds maximum permissible size",
    ),
    (1050, b"ES: Extended services request too large"),
    (1051, b"Scan: Attribute set id required -- not supplied"),
    (
        1052,
        b"ES: Cannot process task package record -- exceeds maximum permissible record size for ES",
    ),
    (
        1053,
        b"ES: Cannot return task package record -- exceeds maximum permissible record size for ES response",
    ),
    (1054, b"Init: Required negotiation record not included"),
    (1055, b"Init: negotiation option required"),
    (1056, b"Attribute not supported for database"),
    (1057, b"ES: Unsupported value of task package parameter"),
    (
        1058,
        b"Duplicate Detection: Cannot dedup on requested record portion",
    ),
    (
        1059,
        b"Duplicate Detection: Requested detection criterion not supported",
    ),
    (
        1060,
        b"Duplicate Detection: Requested level of match not supported",
    ),
    (
        1061,
        b"Duplicate Detection: Requested regular expression not supported",
    ),
    (1062, b"Duplicate Detection: Cannot do clustering"),
    (
        1063,
        b"Duplicate Detection: Retention criterion not supported",
    ),
    (
        1064,
        b"Duplicate Detection: Requested number (or percentage) of entries ",
    ),
    (
        1065,
        b"Duplicate Detection: Requested sort criterion not supported",
    ),
    (1066, b"CompSpec: Unknown schema, or schema not supported."),
    (
        1067,
        b"Encapsulation: Encapsulated sequence of PDUs not supported",
    ),
    (
        1068,
        b"Encapsulation: Base operation (and encapsulated PDUs) not executed based on pre-screening analysis",
    ),
    (1069, b"No syntaxes available for this request"),
    (
        1070,
        b"User not authorized to receive record(s) in requested syntax",
    ),
    (1071, b"preferredRecordSyntax not supplied"),
    (
        1072,
        b"Query term includes characters that do not translate into the target character set",
    ),
    (
        1073,
        b"Database records do not contain data associated with access point",
    ),
    (1074, b"Proxy failure"),
];

/// Returns the words of the first entry of this number.
fn find_in(entries: &[(u16, &'static [u8])], condition: i64) -> Option<&'static [u8]>
    ensures { option_copied result ≡ words_in (map (λ e. (e.0, e.1.now)) entries.now) condition }
{
    for (number, words) in entries {
        if i64::from(*number) == condition {
            return Some(*words);
        }
    }
    None
}

/// Returns the words for a condition of bib-1 by its number, if the standard has it.
pub(crate) fn find_words(condition: i64) -> Option<&'static [u8]>
    ensures { option_copied result ≡ condition_words condition }
{
    find_in(&FROM_1, condition)
        .or(find_in(&FROM_100, condition))
        .or(find_in(&FROM_201, condition))
        .or(find_in(&FROM_1001, condition))
        .or(find_in(&FROM_1040, condition))
}
