//! The status codes of answers.
ghost use Rattle.std.specs.Prelude.{◌≡◌, IfSome, Some};
ghost use Rattle.ipp_names.specs.IppStatuses.{status_keyword, status_number, status_of, statuses};

/// A status code (RFC 8011 appendix B).
#[derive(Clone, Copy, PartialEq, Eq)]
pub enum Status {
    SuccessfulOk = 0x0000,
    SuccessfulOkIgnoredOrSubstitutedAttributes = 0x0001,
    SuccessfulOkConflictingAttributes = 0x0002,
    BadRequest = 0x0400,
    Forbidden = 0x0401,
    NotAuthenticated = 0x0402,
    NotAuthorized = 0x0403,
    NotPossible = 0x0404,
    Timeout = 0x0405,
    NotFound = 0x0406,
    Gone = 0x0407,
    RequestEntityTooLarge = 0x0408,
    RequestValueTooLong = 0x0409,
    DocumentFormatNotSupported = 0x040a,
    AttributesOrValuesNotSupported = 0x040b,
    UriSchemeNotSupported = 0x040c,
    CharsetNotSupported = 0x040d,
    ConflictingAttributes = 0x040e,
    CompressionNotSupported = 0x040f,
    CompressionError = 0x0410,
    DocumentFormatError = 0x0411,
    DocumentAccessError = 0x0412,
    InternalError = 0x0500,
    OperationNotSupported = 0x0501,
    ServiceUnavailable = 0x0502,
    VersionNotSupported = 0x0503,
    DeviceError = 0x0504,
    TemporaryError = 0x0505,
    NotAcceptingJobs = 0x0506,
    Busy = 0x0507,
    JobCanceled = 0x0508,
    MultipleDocumentJobsNotSupported = 0x0509,
}

static STATUSES: [Status; 32] = [
    Status::SuccessfulOk,
    Status::SuccessfulOkIgnoredOrSubstitutedAttributes,
    Status::SuccessfulOkConflictingAttributes,
    Status::BadRequest,
    Status::Forbidden,
    Status::NotAuthenticated,
    Status::NotAuthorized,
    Status::NotPossible,
    Status::Timeout,
    Status::NotFound,
    Status::Gone,
    Status::RequestEntityTooLarge,
    Status::RequestValueTooLong,
    Status::DocumentFormatNotSupported,
    Status::AttributesOrValuesNotSupported,
    Status::UriSchemeNotSupported,
    Status::CharsetNotSupported,
    Status::ConflictingAttributes,
    Status::CompressionNotSupported,
    Status::CompressionError,
    Status::DocumentFormatError,
    Status::DocumentAccessError,
    Status::InternalError,
    Status::OperationNotSupported,
    Status::ServiceUnavailable,
    Status::VersionNotSupported,
    Status::DeviceError,
    Status::TemporaryError,
    Status::NotAcceptingJobs,
    Status::Busy,
    Status::JobCanceled,
    Status::MultipleDocumentJobsNotSupported,
];

impl Status {
    /// Returns each status code, by its number.
    pub fn all() -> &'static [Status]
        ensures { result.now ≡ statuses }
    {
        &STATUSES
    }

    /// Returns its number.
    pub fn number(self) -> u16
        ensures value { result ≡ status_number self }
        ensures round_trip { status_of result ≡ Some self }
    {
        self as u16
    }

    /// Returns the status code with this number, if any.
    pub fn from_number(number: u16) -> Option<Status>
        ensures value { result ≡ status_of number }
        ensures round_trip { IfSome result (λ found. status_number found ≡ number) }
    {
        STATUSES
            .iter()
            .copied()
            .find(|status| status.number() == number)
    }

    /// Returns its keyword.
    pub fn keyword(self) -> &'static str
        ensures { result.now ≡ status_keyword self }
    {
        match self {
            Status::SuccessfulOk => "successful-ok",
            Status::SuccessfulOkIgnoredOrSubstitutedAttributes =>
                "successful-ok-ignored-or-substituted-attributes",
            Status::SuccessfulOkConflictingAttributes => "successful-ok-conflicting-attributes",
            Status::BadRequest => "client-error-bad-request",
            Status::Forbidden => "client-error-forbidden",
            Status::NotAuthenticated => "client-error-not-authenticated",
            Status::NotAuthorized => "client-error-not-authorized",
            Status::NotPossible => "client-error-not-possible",
            Status::Timeout => "client-error-timeout",
            Status::NotFound => "client-error-not-found",
            Status::Gone => "client-error-gone",
            Status::RequestEntityTooLarge => "client-error-request-entity-too-large",
            Status::RequestValueTooLong => "client-error-request-value-too-long",
            Status::DocumentFormatNotSupported => "client-error-document-format-not-supported",
            Status::AttributesOrValuesNotSupported =>
                "client-error-attributes-or-values-not-supported",
            Status::UriSchemeNotSupported => "client-error-uri-scheme-not-supported",
            Status::CharsetNotSupported => "client-error-charset-not-supported",
            Status::ConflictingAttributes => "client-error-conflicting-attributes",
            Status::CompressionNotSupported => "client-error-compression-not-supported",
            Status::CompressionError => "client-error-compression-error",
            Status::DocumentFormatError => "client-error-document-format-error",
            Status::DocumentAccessError => "client-error-document-access-error",
            Status::InternalError => "server-error-internal-error",
            Status::OperationNotSupported => "server-error-operation-not-supported",
            Status::ServiceUnavailable => "server-error-service-unavailable",
            Status::VersionNotSupported => "server-error-version-not-supported",
            Status::DeviceError => "server-error-device-error",
            Status::TemporaryError => "server-error-temporary-error",
            Status::NotAcceptingJobs => "server-error-not-accepting-jobs",
            Status::Busy => "server-error-busy",
            Status::JobCanceled => "server-error-job-canceled",
            Status::MultipleDocumentJobsNotSupported =>
                "server-error-multiple-document-jobs-not-supported",
        }
    }
}
